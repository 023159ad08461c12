//! What an export hands over, byte for byte: each fragment of the exported region that isn't clean, with its dirty
//! names. The format is one grammar, which the encoder and the decoder both keep.
#![tactic(auto)]

mod checking;
mod exports;
pub mod laws;
mod reading;
mod rising;
mod sendable;
mod writing;

pub use exports::{Export, SentFrag, SentFrags, SentNames};
pub use reading::decode_export;
pub use sendable::is_sendable;
pub use writing::encode_export;
