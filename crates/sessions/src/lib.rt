//! The session table: for each client its mark, the greatest `oldest` among its applied requests, and where in the
//! history the replies are that were given to its transaction numbers at or above the mark. It tells whether a request
//! that came again was applied before, without a walk of the history: a look-up of the client and one of the number.
//! The client is looked up once on a request's way: where its session is kept is handed on.
#![tactic(auto)]

mod clients;
mod found;
mod kept;
pub mod laws;
mod restoring;
mod session_table;

pub use clients::Seen;
pub use found::SessionAt;
pub use kept::{ClientKept, Replies};
pub use restoring::Unfit;
pub use session_table::Sessions;
