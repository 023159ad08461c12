//! The error numbers that an operation answers, Linux's of the same names.

/// No entry of that name.
pub const ENOENT: u16 = 2;

/// An entry of that name is there already.
pub const EEXIST: u16 = 17;

/// The entry is no directory where one is needed.
pub const ENOTDIR: u16 = 20;

/// The entry is a directory where none may stand.
pub const EISDIR: u16 = 21;

/// An argument that makes no sense there: a bad name, no link, a directory moved below itself.
pub const EINVAL: u16 = 22;

/// A directory has as many entries as it may have.
pub const ENOSPC: u16 = 28;

/// A name or a link's target is too long.
pub const ENAMETOOLONG: u16 = 36;

/// The directory isn't empty.
pub const ENOTEMPTY: u16 = 39;

/// The number isn't that of a directory of the tree now.
pub const ESTALE: u16 = 116;
