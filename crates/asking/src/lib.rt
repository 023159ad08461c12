//! One call, one answer: a request gets its answer by steps of a book alone, whichever ranks hold the fragments. A
//! history in a contract is always the whole one: the forgotten entries, whichever these are, and the entries that the
//! book keeps.
#![tactic(auto)]

mod asks;
mod drains;
mod ending;
mod grants;
pub mod laws;
mod serves;
mod services;
mod through;

pub use asks::{Among, ask, ask_among};
pub use cluster_core::Receipt;
pub use drains::{Drained, drain};
pub use ending::end_export;
pub use grants::grant_all;
pub use services::{Service, ask_once};
pub use through::ask_through;
