//! The words that every layer of the metadata cluster speaks: ranks, inode numbers, directory fragments, names, inodes,
//! requests with their replies and refusals, and the entries of a history; and the strings of bytes that names,
//! targets, keys, values and the names of objects are (`Bytes`, `Text`), ordered as memory compares. The definitions of
//! the product's promises, from fragment arithmetic to the legal history, stand in `specs/`.
#![tactic(auto)]

mod byte_order;
mod bytes;
mod dentries;
mod digits;
mod dirfrags;
mod entries;
mod errno;
mod frags;
mod ids;
mod inodes;
pub mod laws;
mod limits;
mod listings;
mod modes;
mod names;
mod object_names;
mod object_texts;
mod operations;
mod packed_attributes;
mod page_sizes;
mod refusals;
mod replies;
mod requests;
mod short_bytes;
mod targets;
mod texts;

pub use bytes::Bytes;
pub use dentries::Dentry;
pub use digits::{glyph, write_digits_in};
pub use dirfrags::Dirfrag;
pub use entries::Entry;
pub use errno::{EEXIST, EINVAL, EISDIR, ENAMETOOLONG, ENOENT, ENOSPC, ENOTDIR, ENOTEMPTY, ESTALE};
pub use frags::Frag;
pub use ids::{Ino, Rank};
pub use inodes::{Alteration, Attributes, Birth, Inode, Kind};
pub use limits::Limit;
pub use listings::Listing;
pub use modes::Mode;
pub use names::{Name, NameFault};
pub use object_names::{ObjName, Spelt};
pub use object_texts::{LentText, ObjText};
pub use operations::Op;
pub use packed_attributes::PackedAttributes;
pub use page_sizes::PageSize;
pub use refusals::Refusal;
pub use replies::Reply;
pub use requests::Request;
pub use targets::{Target, TargetFault};
pub use texts::{Text, TextRef};
