//! What one thread makes before the others start: a directory for each client.
ghost use Rattle.std.specs.Prelude.{◌≤◌};
ghost use Rattle.admin_cli.specs.Left.{BookGrows};

use crate::workload::handing::hand;
use crate::workload::requests::ask;
use cluster_core::Book;
use keeping::Keep;
use mds_types::{Birth, Dentry, Ino, Mode, Name, Op, Rank, Reply, Request};
use std::alloc::Global;

/// A client, its directory, and the rank that is the directory's authority.
#[derive(Clone, Copy, Debug)]
pub(crate) struct Home {
    pub(crate) client: u64,
    pub(crate) dir: Ino,
    pub(crate) rank: Rank,
}

/// Makes a directory in the root for each of so many clients, in a book of so many ranks. The first directory is handed
/// to rank 0, the next to rank 1, and so on in turn. None if memory or a step is refused.
#[tactic(auto, using(crate::proofs::GoesOnLaws::goes_on_here, crate::proofs::GoesOnLaws::goes_on_past))]
pub(crate) fn make_homes<S: Keep + Drop>(
    alloc: Global,
    book: &mut Book<S>,
    ranks: u8,
    clients: u8,
) -> Option<Vec<Home>>
    requires { 1 ≤ ranks }
    ensures { BookGrows book.old book.new }
{
    let mut homes = Vec::new(alloc);
    for number in 0..clients {
        let home = make_home(alloc, book, number, Rank(number % ranks))?;
        if homes.push(home).is_err() {
            return None;
        }
    }
    Some(homes)
}

// Makes the directory of the next client, at a rank, after so many others.
#[tactic(auto, using(crate::proofs::GoesOnLaws::goes_on_here, crate::proofs::GoesOnLaws::goes_on_past))]
fn make_home<S: Keep + Drop>(
    alloc: Global,
    book: &mut Book<S>,
    number: u8,
    rank: Rank,
) -> Option<Home>
    ensures { BookGrows book.old book.new }
{
    let dir = make_dir(alloc, book, number)?;
    // the authority of a new directory is the rank that has the root
    if rank != Rank(0) {
        hand(alloc, book, dir, rank)?;
    }
    Some(Home {
        client: client_of(number),
        dir,
        rank,
    })
}

// The next client after so many others.
fn client_of(number: u8) -> u64 {
    u64::from(number) + 1
}

// Makes the directory of that client in the root.
#[tactic(auto, using(crate::proofs::GoesOnLaws::goes_on_here, crate::proofs::GoesOnLaws::goes_on_past))]
fn make_dir<S: Keep + Drop>(alloc: Global, book: &mut Book<S>, number: u8) -> Option<Ino>
    ensures { BookGrows book.old book.new }
{
    let request = Request {
        client: client_of(number),
        tid: 1,
        oldest: 1,
        op: mkdir(alloc, number)?,
    };
    match ask(alloc, book, request)? {
        Reply::Entry(inode) => Some(inode.ino),
        other => {
            drop(other);
            None
        }
    }
}

// The operation that makes that directory.
fn mkdir(alloc: Global, number: u8) -> Option<Op> {
    let mode = Mode::new(0o755)?;
    let text = format!(in alloc; "c{number}").ok()?;
    let name = Name::from_bytes(alloc, text.as_bytes()).ok()?;
    Some(Op::Mkdir {
        dentry: Dentry {
            dir: Ino::ROOT,
            name,
        },
        mode,
        birth: Birth::OF_ROOT,
    })
}
