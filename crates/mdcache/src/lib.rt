//! The tree over caches and a store, CephFS's `MDCache`: which directories there are and which leaves they have, what
//! the ranks' caches of fragments hold beyond the objects of the store, which commits were begun, and which objects are
//! to be removed. What a leaf shows is what isn't clean of it over its object, so no fetch and no eviction changes the
//! tree that is shown.
//!
//! What contracts see of it (`Core`), the tree that is shown, what makes it sound and what each change makes of it is
//! defined here, with its laws.
#![tactic(auto)]

// the type, a new tree, and one over a store as it is found
mod formatting;
mod mdcache;
mod mounting;

// what stands beside directories and caches: the jobs, the objects that are to be removed, the numbers that are given
// out
mod counters;
mod purge_list;
mod standing_jobs;

// reads
mod fetching;
mod leaves;
mod listing;
mod page;
mod reading;

// changes: what is made ready for them, and their steps
mod applying;
mod changes;
mod changing;
mod readies;
mod readying;

// a directory's leaves are split and merged
mod joining;
mod merge_plan;
mod merging;
mod regrouping;
mod split_plan;
mod splitting;

// commits, evictions, leaves that go to another rank, and the store's objects
mod batches;
mod beginning;
mod dropping;
mod ending;
mod evicting;
mod flushing;
mod handing;
mod purging;
mod tree_objects;
mod trees;

// the laws of what changes, splits and merges are defined to do, and of what a flush ends in
mod flush_laws;
mod laws;

pub use flush_laws::{flushed_is_cold, steps_keep_the_tree, whole_commits_leave_nothing};
pub use laws::{changes_are_right, merges_are_right, splits_are_right};
pub use mdcache::MdCache;
pub use mounting::Opening;
pub use page::Page;
pub use purge_list::PurgeList;
pub use standing_jobs::StandingJobs;
