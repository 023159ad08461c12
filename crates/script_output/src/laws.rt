//! Laws of the script's text: what it prints can be read back.
ghost use Rattle.script_output.specs.Laws.{FragmentsReadBack, NamesReadBack, NumbersReadBack};

/// A name, a target or a key is read back from what is printed of it.
pub fn names_read_back()
    ensures { NamesReadBack }
{}

/// A fragment is read back from what is printed of it.
pub fn fragments_read_back()
    ensures { FragmentsReadBack }
{}

/// An inode number, a mode or another number is read back from what is printed of it.
pub fn numbers_read_back()
    ensures { NumbersReadBack }
{}
