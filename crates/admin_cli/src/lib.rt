//! The engine of the `cephmeta` program: its command line, the scripts that it runs over a cluster, and the load that
//! it serves.
#![tactic(auto)]

mod authorities;
mod carrying;
mod command_line;
mod commands;
mod exporting;
mod faults;
mod kept_jobs;
mod modes;
mod own_turns;
mod script;
mod serving;
mod store_commands;
mod telling;
mod waiting;
mod workload;

pub use command_line::{Options, settings};
pub use faults::{FaultKind, ScriptFault};
pub use mds_types::Limit;
pub use modes::Mode;
pub use script::{Ran, run_new, run_over, run_script};
pub use serving::{serve, serve_over};
pub use telling::{Aloud, Tell, Untold};
pub use workload::{
    CACHE, Load, ServeFault, Served, opens_empty, run_over_book, run_serve, run_watched,
};
