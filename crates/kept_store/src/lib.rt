//! A store of objects that outlives the process. It has the objects in memory, which serve all reads; the names and
//! keys that changed; and tables that mirror the objects and have the session map beside them.
#![tactic(auto)]

mod kept;
mod noting;
mod settling;

pub use kept::Kept;
pub use settling::Settle;
