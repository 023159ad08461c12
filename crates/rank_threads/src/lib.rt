//! Rank threads. One thread for each rank works on one book under one lock, and workers encode commits with no lock
//! held. Whatever the schedule was, a run that succeeds gives a book whose history replays and begins with the history
//! handed in, and the replies that its threads were given agree with that history.
#![tactic(auto)]

mod commits;
mod desks;
mod gates;
mod locking;
mod outcomes;
mod own_turns;
mod plans;
mod prepared;
mod ranks;
mod receipts;
mod replies;
mod running;
mod scopes;
mod standing;
mod workers;

pub use cluster_core::Receipt;
pub use commits::Commit;
pub use gates::{Gate, OpenGate};
pub use outcomes::{Outcome, RunError, RunFault};
pub use plans::Turn;
pub use running::run_cluster;
pub use standing::audit;
