//! Laws of the tables, each the contract of a function that does nothing.
ghost use Rattle.object_tables.specs.Sessions.{HaveOneSessionMap};
ghost use Rattle.object_tables.specs.Spelled.{HaveOneSpelling};

/// Tables spell at most one set of objects.
pub fn objects_have_one_spelling()
    ensures { HaveOneSpelling }
{}

/// Tables have at most one session map.
pub fn session_map_has_one_spelling()
    ensures { HaveOneSessionMap }
{}
