//! The operations of clients, over any fragments: what each answers and what it changes is the operation table of
//! `mds_types`.
#![tactic(auto)]

mod altering;
mod changing;
mod checking;
mod filling;
mod frags;
mod laws;
mod locating;
mod making;
mod plans;
mod reading;
mod removing;
mod renaming;
mod serving;

pub use changing::changes;
pub use checking::check;
pub use frags::Frags;
pub use laws::{
    above_is_a_chain, errno_leaves_tree, making_takes_number, names_are_listed,
    number_leaves_errno, numbers_stay, pages_make_up_listing, step_keeps_well_formed,
};
pub use locating::{Located, Places, locate};
pub use plans::{Change, Checked, Spot};
pub use serving::serve_op;
