//! Whether two replies are the same.
ghost use Rattle.std.specs.Prelude.{◌≡◌, ◌↔◌, IsTrue};

use mds_types::{Inode, Listing, Reply};

/// Whether two replies are the same. The derived `==` computes the same, but has no contract that says so.
pub(crate) fn is_same(one: &Reply, other: &Reply) -> bool
    ensures { IsTrue result ↔ (one.now ≡ other.now) }
{
    match (one, other) {
        (Reply::Entry(a), Reply::Entry(b)) => is_same_inode(a, b),
        (Reply::Entries { list: a, more: m }, Reply::Entries { list: b, more: n }) => {
            is_same_listing(a, b) && m == n
        }
        (Reply::Target(a), Reply::Target(b)) => a == b,
        (Reply::Done, Reply::Done) => true,
        (Reply::Errno(a), Reply::Errno(b)) => a == b,
        _ => false,
    }
}

// Whether two inodes are the same.
fn is_same_inode(one: &Inode, other: &Inode) -> bool
    ensures { IsTrue result ↔ (one.now ≡ other.now) }
{
    one == other
}

// Whether two listings have the same names and inodes in the same order.
fn is_same_listing(one: &Listing, other: &Listing) -> bool
    ensures { IsTrue result ↔ (one.now ≡ other.now) }
{
    one == other
}
