//! The law of what is sent of a region. A law is its contract: its body does nothing.
ghost use Rattle.export_regions.specs.Regions.{HasOneExport};

/// Of a region, as its fragments that aren't clean stand, one export alone is to be sent from one rank to another.
pub fn a_region_has_one_export()
    ensures { HasOneExport }
{}
