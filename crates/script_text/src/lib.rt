//! The lines of a script for a metadata cluster: which lines a reader's bytes are, each read in the memory of one, and
//! what a line asks for. The cluster itself plays no part here. The definitions stand in `specs/`.
#![tactic(auto)]

mod attributes;
mod authorities;
mod commands;
mod dirfrags;
mod exports;
mod lines;
mod operations;
mod reading;
mod store_commands;

pub use commands::Command;
pub use exports::{ExportCommand, read_export};
pub use lines::{Line, read_line, read_operation_line};
pub use reading::buffer::{LineBuffer, MAX_LINE_LEN};
pub use reading::input::{LineFault, NextLine, has_line, next_line};
pub use script_words::ReadError;
pub use store_commands::{StoreCommand, read_store_command};
