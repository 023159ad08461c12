//! A law of the lines, the contract of a function that does nothing.
ghost use Rattle.script_output.specs.ShownObjects.{HasOneLine};

/// An object has one line: no object is two things, and what it is says all that is printed of it.
pub fn object_has_one_line()
    ensures { HasOneLine }
{}
