//! A store of objects that can be told to write them where they outlive the process: `Keep`; edits of rows that it may
//! keep beside them, `RowEdit`; and why a `keep` can fail, `Unkept`. A store in memory meets `Keep` by doing nothing.
#![tactic(auto)]

mod keep;
mod rows;
mod unkept;

pub use keep::Keep;
pub use rows::RowEdit;
pub use unkept::Unkept;
