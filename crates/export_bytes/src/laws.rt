//! The law of the format. A law is its contract: its body does nothing.
ghost use Rattle.dirfrag_codec.specs.Grammar.{HasOneMeaning, HasOneSpelling, NothingFollows, IsReaderOf};
ghost use Rattle.export_bytes.specs.Export.{SpellsExport};
ghost use Rattle.export_bytes.specs.Reading.{export_of};

/// Bytes are one export alone, an export has one spelling, and no export begins another. `export_of` is the export that
/// bytes are.
pub fn exports_are_spelled_once()
    ensures meaning { HasOneMeaning SpellsExport }
    ensures spelling { HasOneSpelling SpellsExport }
    ensures ended { NothingFollows SpellsExport }
    ensures value { IsReaderOf SpellsExport export_of }
{}
