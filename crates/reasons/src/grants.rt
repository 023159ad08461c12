//! Refused `Pinned`: a grant on a leaf.

use crate::asked::Asked;
use crate::leaf::Leaf;
use crate::looks::{MOST_LEAVES, end_of, grant_on, is_under, leaf_inside};
use cluster_core::Cluster;
use inboxes::Pin;
use objstore::Store;
use script_output::OwnStep;
use std::fmt;

/// A leaf is granted for a request.
#[derive(Clone, Copy)]
pub(crate) struct Granted(Pin);

/// The grant that the step met.
pub(crate) fn grant_met<S: Store + Drop>(
    cluster: &Cluster<S>,
    asked: &Asked<'_>,
) -> Option<Granted> {
    match asked {
        Asked::Split { leaf, .. } => granted_on(cluster, leaf),
        Asked::Merge { whole, .. } => granted_inside(cluster, whole),
        Asked::Export(OwnStep::Freeze, root) => granted_under(cluster, root),
        _ => None,
    }
}

// A grant on a leaf.
fn granted_on<S: Store + Drop>(cluster: &Cluster<S>, leaf: &Leaf) -> Option<Granted> {
    match grant_on(cluster, leaf) {
        Some(pin) => Some(Granted(pin)),
        None => None,
    }
}

// A grant on a leaf properly inside a fragment.
fn granted_inside<S: Store + Drop>(cluster: &Cluster<S>, whole: &Leaf) -> Option<Granted> {
    let mut hash = whole.frag.value();
    for _ in 0..MOST_LEAVES {
        let leaf = leaf_inside(cluster, whole, hash)?;
        hash = end_of(leaf.frag);
        let found = granted_on(cluster, &leaf);
        if found.is_some() {
            return found;
        }
    }
    None
}

// A grant in the region that a leaf would have.
fn granted_under<S: Store + Drop>(cluster: &Cluster<S>, root: &Leaf) -> Option<Granted> {
    for pin in cluster.grants() {
        let leaf = leaf_of(pin);
        if is_under(cluster, root, &leaf) {
            return Some(Granted(*pin));
        }
    }
    None
}

// The leaf that a grant is on.
fn leaf_of(pin: &Pin) -> Leaf {
    Leaf {
        dir: pin.dir,
        frag: pin.frag,
    }
}

impl fmt::Display for Granted {
    fn fmt<W: fmt::Write>(&self, f: &mut fmt::Formatter<W>) -> fmt::Result {
        let pin = &self.0;
        let leaf = leaf_of(pin);
        let (client, tid) = (pin.client, pin.tid);
        write!(f, "{leaf} is granted to client {client}, request {tid}; ")?;
        write!(f, "it ends when that request is served")
    }
}
