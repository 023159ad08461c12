//! The words of a script for a metadata cluster: how a line is cut into words, and what each kind of word stands for,
//! as a number, a name or a fragment. What lines ask for is the business of the crates above. The definitions stand in
//! `specs/`.
#![tactic(auto)]

mod arguments;
mod counts;
mod escapes;
mod faults;
mod fragments;
mod numbers;
mod words;

pub use arguments::{
    after, client, decimal, id, ino, mode, name, page_size, pin, rank, target, text, two_texts,
    word_name,
};
pub use counts::{first, four, none, one, three, two};
pub use faults::{Fault, NOT_COMMAND, ReadError};
pub use fragments::{frag, split_bits};
pub use words::{is_comment, is_printable, is_text, next_word};
