//! What waits at the ranks of a cluster: the requests in each rank's inbox, and the grants by which a rank lets another
//! one change its fragments for one request (pins). Lists and a set; who serves, forwards or grants what is the
//! cluster's to decide. Below it stands mds_types alone.
#![tactic(auto)]

mod inbox;
mod inboxes;
mod pins;

pub use inbox::Inbox;
pub use inboxes::Inboxes;
pub use pins::{Pin, Pins};
