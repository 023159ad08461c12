//! What stands in the store, byte for byte: records of directory entries, headers of fragments and fragment trees. Each
//! format is one grammar, a relation of bytes and values in `specs/`, which its encoder and its decoder both keep.
#![tactic(auto)]

pub mod fields;
mod headers;
pub mod laws;
mod recordable;
mod records;
mod trees;

pub use headers::{FragHeader, decode_header, encode_header};
pub use recordable::is_recordable;
pub use records::{decode_entry, decode_written, encode_entry, has_widths};
pub use trees::{decode_tree, encode_tree};
