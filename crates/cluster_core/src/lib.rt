//! The metadata cluster: its events, and the book that keeps a cluster together with the history of what it answered.
#![tactic(auto)]

mod administering;
mod answering;
mod applying;
mod barred;
mod books;
mod clusters;
mod events;
mod exporting;
mod flushing;
mod forgetting;
mod giving_up;
mod going_on;
mod granting;
mod kept_bytes;
pub mod laws;
mod masters;
mod mounting;
mod parts;
mod pinned;
mod pinned_away;
mod plain_trees;
pub mod proposals;
mod proposing;
mod receipts;
mod regroups;
mod restarting;
mod resuming;
mod runs;
mod serving;
mod settled;
mod sights;
mod storing;

pub use books::{Book, format};
pub use clusters::Cluster;
pub use events::{Answer, Event};
pub use flushing::flush;
pub use giving_up::give_up;
pub use kept_bytes::KeptBytes;
pub use mounting::mount;
pub use plain_trees::PlainTree;
pub use receipts::Receipt;
pub use restarting::{NotRestarted, restart};
pub use resuming::resume;
pub use runs::run;
