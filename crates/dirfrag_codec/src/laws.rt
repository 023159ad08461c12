//! Laws of the formats. A law is its contract: its body does nothing.
ghost use Rattle.dirfrag_codec.specs.EntryRecord.{HasItsSpellings, SpellsEntry, WritesEntry};
ghost use Rattle.dirfrag_codec.specs.FragHeader.{SpellsHeader};
ghost use Rattle.dirfrag_codec.specs.FragmentObject.{HasOneFragment, HasOneTree, ShowsAtEach, SpellsKey, SpellsWhatItShows};
ghost use Rattle.dirfrag_codec.specs.Grammar.{HasOneMeaning, HasOneSpelling, IsReadAgain, NothingFollows, IsReaderOf};
ghost use Rattle.dirfrag_codec.specs.TreeObject.{SpellsTree};
ghost use Rattle.dirfrag_codec.specs.Values.{inode_of_record, header_of, name_of_key, tree_of_bytes, written_of};

/// Bytes are the record of one inode alone, an inode's record is written in one way and read as that inode, and no
/// record begins another. `entry_of` is the inode whose record bytes are, and `written_of` that whose written record
/// they are. What version 1 can say has one spelling in each version, any other inode one in version 2.
pub fn entries_are_spelled_once()
    ensures meaning { HasOneMeaning SpellsEntry }
    ensures spelling { HasOneSpelling WritesEntry }
    ensures again { IsReadAgain WritesEntry SpellsEntry }
    ensures ended { NothingFollows SpellsEntry }
    ensures value { IsReaderOf SpellsEntry inode_of_record }
    ensures written { IsReaderOf WritesEntry written_of }
    ensures versions { HasItsSpellings }
{}

/// Bytes are one header alone, a header has one spelling, and no header begins another. `header_of` is the header that
/// bytes are.
pub fn headers_are_spelled_once()
    ensures meaning { HasOneMeaning SpellsHeader }
    ensures spelling { HasOneSpelling SpellsHeader }
    ensures ended { NothingFollows SpellsHeader }
    ensures value { IsReaderOf SpellsHeader header_of }
{}

/// Bytes are one tree alone, a tree has one spelling, and no tree begins another. `tree_of` is the tree that bytes are.
pub fn trees_are_spelled_once()
    ensures meaning { HasOneMeaning SpellsTree }
    ensures spelling { HasOneSpelling SpellsTree }
    ensures ended { NothingFollows SpellsTree }
    ensures value { IsReaderOf SpellsTree tree_of_bytes }
{}

/// A key is that of one name alone, and a name has one key. `name_of` is the name whose key bytes are.
pub fn keys_are_spelled_once()
    ensures meaning { HasOneMeaning SpellsKey }
    ensures spelling { HasOneSpelling SpellsKey }
    ensures value { IsReaderOf SpellsKey name_of_key }
{}

/// An object spells at most one fragment, at one commit version, and at most one fragment tree. The names that it
/// spells are those that its pairs show (`names_of`): at each name the inode of the record under the name's key.
pub fn fragments_are_spelled_once()
    ensures fragment { HasOneFragment }
    ensures tree { HasOneTree }
    ensures shown { SpellsWhatItShows }
    ensures each { ShowsAtEach }
{}
