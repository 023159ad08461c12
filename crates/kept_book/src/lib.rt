//! A cluster over a store that is mirrored in tables: what a crash leaves of its tree, and how the cluster starts
//! again. After a flush that was kept, the tree after the history is on disk, and beside it the sessions of clients and
//! the next inode numbers of ranks (`save`). Until the next flush a crash leaves these; during the next flush it leaves
//! these or the new ones (`a_crash_leaves_a_flush`). A cluster opens with them (`open_book`), or with the tree alone
//! (`come_back`).
#![tactic(auto)]

mod back;
mod laws;
mod opening;
mod saving;

pub use back::come_back;
pub use laws::a_crash_leaves_a_flush;
pub use opening::{Unopened, open_book};
pub use saving::{Unsaved, kept_of, save};
