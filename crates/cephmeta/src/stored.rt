//! A script or a load over the tree in a file. All but the opening of the file is generic over the tables, so that
//! nothing is proved here about the database's own types.
ghost use Rattle.std.specs.Prelude.{◌≤◌};
ghost use Rattle.sqlite_trees.specs.View.{IsClean};
ghost use Rattle.kept_store.specs.Kept.{IsFreshMirror};
ghost use Rattle.admin_cli.specs.Loads.{IsLoad};

use admin_cli::{
    Aloud, CACHE, Limit, Load, Mode, Ran, Served, Untold, opens_empty, run_over, serve_over,
};
use cluster_core::Book;
use keeping::Unkept;
use kept_book::{Unsaved, open_book, save};
use kept_store::{Kept, Settle};
use std::alloc::Global;
use std::fmt::Display;
use std::io;
use std::io::IsTerminal;
use std::sync::Wait;
use std::thread::Threads;
use store_file::{Wary, open, remove_log};

/// The number of ranks, of fragments that each may cache, and of entries that a directory may have.
#[derive(Clone, Copy, Debug)]
pub struct Shape {
    pub ranks: u8,
    pub cache: u32,
    pub limit: Limit,
}

/// Runs a script over the tree in a file, and saves what the script didn't flush. Returns whether all went well.
/// Standard error tells what is wrong with the file, what isn't saved, and, if that is asked for, why a line was
/// refused. `host` opens the file, `rt` runs threads.
pub fn script_stored<H: AllocGlobal + Threads + Sync>(
    host: &HostRuntime,
    rt: &H,
    path: &str,
    shape: Shape,
    mode: Mode,
    explains: bool,
) -> io::Result<bool>
    requires one { 1 ≤ shape.ranks }
    requires few { shape.ranks ≤ 16 }
    requires least { 512 ≤ shape.cache }
    requires most { shape.cache ≤ 65536 }
{
    match open(host, path, Wary) {
        Ok(tables) => script_over(host, rt, path, tables, shape, mode, explains),
        Err(fault) => told(host, path, &fault),
    }
}

/// Serves a load over the tree in a file, which must be empty, and saves the tree after it. Returns whether all went
/// well, and tells on standard error what didn't.
pub fn serve_stored<H: AllocGlobal + Threads + Wait + Sync + Eprint>(
    host: &HostRuntime,
    rt: &H,
    path: &str,
    load: Load,
) -> io::Result<bool>
    requires { IsLoad load.ranks load.workers load.clients load.creates }
{
    match open(host, path, Wary) {
        Ok(tables) => load_over(host, rt, path, tables, load),
        Err(fault) => told(host, path, &fault),
    }
}

// Runs a script over the tree in tables.
fn script_over<T: Settle + Drop, H: AllocGlobal + Threads + Sync>(
    host: &HostRuntime,
    rt: &H,
    path: &str,
    tables: T,
    shape: Shape,
    mode: Mode,
    explains: bool,
) -> io::Result<bool>
    requires fresh { IsClean (T.Store.view tables) → IsFreshMirror (T.Store.view tables) }
    requires one { 1 ≤ shape.ranks }
    requires few { shape.ranks ≤ 16 }
    requires least { 512 ≤ shape.cache }
    requires most { shape.cache ≤ 65536 }
{
    match mounted(host, rt.alloc(), path, tables, shape) {
        Ok(mut book) => {
            // a second copy of the tree, which a script doesn't need
            book.drop_opening();
            let writer = &mut io::writer(host);
            let Ran { book, ended } = if explains {
                run_over(rt, host.reader(), writer, book, mode, &Aloud::new(host))
            } else {
                run_over(rt, host.reader(), writer, book, mode, &Untold)
            };
            let closed = close(host, rt, path, book);
            if let Err(fault) = ended {
                eprintln!(host; "{fault}")?;
            }
            Ok(is_saved(host, path, closed)? && ended.is_ok())
        }
        Err(told) => told,
    }
}

// Serves a load over the tree in tables, if that tree is empty.
fn load_over<T: Settle + Drop + Send, H: AllocGlobal + Threads + Wait + Sync + Eprint>(
    host: &HostRuntime,
    rt: &H,
    path: &str,
    tables: T,
    load: Load,
) -> io::Result<bool>
    requires fresh { IsClean (T.Store.view tables) → IsFreshMirror (T.Store.view tables) }
    requires load { IsLoad load.ranks load.workers load.clients load.creates }
{
    let shape = Shape {
        ranks: load.ranks,
        cache: CACHE,
        limit: Limit::MAX,
    };
    match mounted(host, rt.alloc(), path, tables, shape) {
        Ok(book) => {
            if !opens_empty(rt.alloc(), &book) {
                let _ = is_saved(host, path, close(host, rt, path, book))?;
                return told(
                    host,
                    path,
                    &"has a tree or sessions, and serve begins with an empty tree and none",
                );
            }
            let is_watched = host.stderr().is_terminal();
            let writer = &mut io::writer(host);
            let Served { book, ended } = serve_over(rt, writer, book, load, is_watched);
            let closed = close(host, rt, path, book);
            if let Err(fault) = ended {
                eprintln!(host; "cephmeta: {fault}")?;
            }
            Ok(is_saved(host, path, closed)? && ended.is_ok())
        }
        Err(told) => told,
    }
}

// Opens a book over the tree in tables, with its sessions. If that fails, tells why and removes the log of the file, which after the opening holds
// nothing that the file lacks.
fn mounted<T: Settle + Drop>(
    host: &HostRuntime,
    alloc: Global,
    path: &str,
    tables: T,
    shape: Shape,
) -> Result<Book<Kept<T>>, io::Result<bool>>
    requires fresh { IsClean (T.Store.view tables) → IsFreshMirror (T.Store.view tables) }
    requires one { 1 ≤ shape.ranks }
    requires few { shape.ranks ≤ 16 }
    requires least { 512 ≤ shape.cache }
    requires most { shape.cache ≤ 65536 }
{
    let kept = match Kept::open(alloc, tables) {
        Ok(kept) => kept,
        Err((fault, tables)) => {
            let _ = remove_log(host, path);
            drop(tables);
            return Err(told(host, path, &fault));
        }
    };
    match open_book(alloc, kept, shape.ranks, shape.cache, shape.limit) {
        Ok(book) => Ok(book),
        Err((fault, kept)) => {
            let _ = remove_log(host, path);
            drop(kept.into_tables());
            Err(told(host, path, &fault))
        }
    }
}

// Whether a tree is on disk, and whether its file holds all of it without the log.
#[derive(Clone, Copy, Debug)]
struct Closed {
    saved: Result<(), Unsaved>,
    settled: Result<(), Unkept>,
}

// Saves the tree of a book. Once the file holds all of it, the log is removed, while the file is still held and no
// other process has it open. The book is taken apart: to drop it, the proofs here would need all the types that it is
// made of.
fn close<T: Settle + Drop>(
    host: &HostRuntime,
    rt: &(impl AllocGlobal + Threads + Sync),
    path: &str,
    mut book: Book<Kept<T>>,
) -> Closed {
    let saved = match save(rt, rt.alloc(), &mut book) {
        Ok(stores) => {
            drop(stores);
            Ok(())
        }
        Err(why) => Err(why),
    };
    let settled = book.settle();
    let tables = book.into_store().into_tables();
    if settled.is_ok() {
        let _ = remove_log(host, path);
    }
    drop(tables);
    Closed { saved, settled }
}

// Whether all is in the file. Standard error tells what isn't.
fn is_saved(host: &impl Eprint, path: &str, closed: Closed) -> io::Result<bool> {
    if let Err(why) = closed.saved {
        eprintln!(host; "cephmeta: {path}: not all is saved: {why}")?;
        return Ok(false);
    }
    if let Err(why) = closed.settled {
        eprintln!(host; "cephmeta: {path}: all is saved, but in part in {path}-wal: {why}")?;
        return Ok(false);
    }
    Ok(true)
}

// Writes to standard error what is wrong with the file.
fn told(host: &impl Eprint, path: &str, fault: &impl Display) -> io::Result<bool> {
    eprintln!(host; "cephmeta: {path}: {fault}")?;
    Ok(false)
}
