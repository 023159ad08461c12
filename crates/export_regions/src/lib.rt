//! What a rank caches of the region of a subtree root, and what an export of the region hands over.
#![tactic(auto)]

mod counts;
mod gathering;
mod known_dirs;
pub mod laws;
mod leaves;
mod regions;
mod sending;
mod spelling;

pub use counts::has_too_many;
pub use leaves::RegionLeaves;
pub use regions::leaves_of;
pub use sending::export_of;
pub use spelling::{Spelled, spell_region};
