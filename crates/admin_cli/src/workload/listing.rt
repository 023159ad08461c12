//! The paths of the tree, read by requests.
ghost use Rattle.std.specs.Prelude.{◌≡◌, IfSome};
ghost use Rattle.admin_cli.specs.Left.{BookGrows};
ghost use Rattle.admin_cli.specs.Reports.{AreInOrder};

use crate::workload::requests::ask;
use cluster_core::Book;
use keeping::Keep;
use mds_types::{Bytes, Ino, Inode, Kind, Name, Op, PageSize, Reply, Request};
use std::alloc::Global;

/// The client that reads.
const READER: u64 = 0;

/// The paths of all names in the root and in its directories, in the order of their bytes.
#[tactic(auto, using(crate::proofs::GoesOnLaws::goes_on_here, crate::proofs::GoesOnLaws::goes_on_past))]
pub(crate) fn all_paths<S: Keep + Drop>(alloc: Global, book: &mut Book<S>) -> Option<Vec<Bytes>>
    ensures ordered { IfSome result (λ paths. AreInOrder paths.items) }
    ensures goes_on { BookGrows book.old book.new }
{
    let top = names_in(alloc, book, Ino::ROOT, 1)?;
    let mut paths = Vec::new(alloc);
    let mut tid: u64 = 1;
    for (name, inode) in &top {
        tid = tid.wrapping_add(1);
        add_entry(alloc, book, tid, name, inode, &mut paths)?;
    }
    sorted(paths)
}

// Sorts paths by their bytes.
fn sorted(paths: Vec<Bytes>) -> Option<Vec<Bytes>>
    ensures { IfSome result (λ paths. AreInOrder paths.items) }
{
    let mut paths = paths;
    match paths.sort() {
        Ok(()) => Some(paths),
        Err(_) => None,
    }
}

// Adds the path of a name in the root, and the paths of its entries if it is a directory.
#[tactic(auto, using(crate::proofs::GoesOnLaws::goes_on_here, crate::proofs::GoesOnLaws::goes_on_past))]
fn add_entry<S: Keep + Drop>(
    alloc: Global,
    book: &mut Book<S>,
    tid: u64,
    name: &Name,
    inode: &Inode,
    paths: &mut Vec<Bytes>,
) -> Option<()>
    ensures { BookGrows book.old book.new }
{
    let path = Bytes::from_slice(alloc, name.as_bytes()).ok()?;
    paths.push(path).ok()?;
    if inode.kind != Kind::Dir {
        return Some(());
    }
    let names = names_in(alloc, book, inode.ino, tid)?;
    add_names(alloc, name, &names, paths)
}

// Adds the paths of the names in a directory of the root.
fn add_names(
    alloc: Global,
    dir: &Name,
    names: &Vec<(Name, Inode)>,
    paths: &mut Vec<Bytes>,
) -> Option<()> {
    for (name, _) in names {
        paths.push(path(alloc, dir, name)?).ok()?;
    }
    Some(())
}

// The path of a name in a directory of the root.
fn path(alloc: Global, dir: &Name, name: &Name) -> Option<Bytes> {
    let mut bytes = Vec::new(alloc);
    bytes.extend_from_slice(dir.as_bytes()).ok()?;
    bytes.push(b'/').ok()?;
    bytes.extend_from_slice(name.as_bytes()).ok()?;
    Bytes::from_vec(alloc, bytes).ok()
}

// The names in a directory with their inodes. One page has them all: a page holds 1024 names, and no directory of a run
// has more than 1000.
#[tactic(auto, using(crate::proofs::GoesOnLaws::goes_on_here, crate::proofs::GoesOnLaws::goes_on_past))]
fn names_in<S: Keep + Drop>(
    alloc: Global,
    book: &mut Book<S>,
    dir: Ino,
    tid: u64,
) -> Option<Vec<(Name, Inode)>>
    ensures { BookGrows book.old book.new }
{
    let op = Op::Readdir {
        dir,
        after: None,
        max: PageSize::MAX,
    };
    let request = Request {
        client: READER,
        tid,
        oldest: tid,
        op,
    };
    match ask(alloc, book, request)? {
        Reply::Entries { list, more: false } => Some(list.into_vec()),
        other => {
            drop(other);
            None
        }
    }
}
