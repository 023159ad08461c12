//! The hash by which the names of a directory are spread over its fragments: Jenkins' hash of 1996,
//! as Ceph's `ceph_str_hash_rjenkins` computes it.
#![tactic(auto)]

mod block;
mod hash;
mod state;

pub use hash::rjenkins;
