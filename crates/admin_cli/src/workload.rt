//! The load of `cephmeta serve`: a directory is made for each client, rank threads create files there and commit, and
//! then the tree is listed and printed with the result of the audit.

mod handing;
mod listing;
mod loads;
mod plans;
mod progress;
mod reports;
mod requests;
mod serving;
mod setup;
mod steps;

pub use loads::Load;
pub use progress::Progress;
pub use serving::{CACHE, ServeFault, Served, opens_empty, run_over_book, run_serve, run_watched};
