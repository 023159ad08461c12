//! The subcommand `cephmeta serve`.
ghost use Rattle.admin_cli.specs.Left.{BookGrows};
ghost use Rattle.admin_cli.specs.Loads.{IsLoad};
ghost use Rattle.admin_cli.specs.Reports.{OpensEmpty, ServesOut};

use crate::workload::{Load, Progress, ServeFault, Served, run_over_book, run_serve, run_watched};
use cluster_core::Book;
use keeping::Keep;
use rank_threads::OpenGate;
use std::io::Write;
use std::sync::Wait;
use std::thread::Threads;

/// Serves a load, as `run_serve` does. If someone watches standard error, it shows there how many creates are done, and
/// how many own steps the ranks made.
pub fn serve<W: Write, H: Threads + Wait + Sync + AllocGlobal + Eprint>(
    rt: &H,
    writer: &mut W,
    load: Load,
    is_watched: bool,
) -> Result<(), ServeFault>
    requires { IsLoad load.ranks load.workers load.clients load.creates }
    ensures { ServesOut (W.contents writer.old) (W.contents writer.new) result }
{
    if is_watched {
        let progress = Progress::new(rt, load);
        let ended = run_watched(rt, writer, load, &progress);
        if ended.is_ok() {
            progress.end();
        }
        return ended;
    }
    run_serve(
        rt,
        writer,
        load.ranks,
        load.workers,
        load.clients,
        load.creates,
    )
}

/// Serves a load so over a book of as many ranks that opened with the empty tree, and returns the book, as
/// `run_over_book` does.
pub fn serve_over<W, H, S>(
    rt: &H,
    writer: &mut W,
    book: Book<S>,
    load: Load,
    is_watched: bool,
) -> Served<S>
where
    W: Write,
    H: Threads + Wait + Sync + AllocGlobal + Eprint,
    S: Keep + Drop + Send,
    requires load { IsLoad load.ranks load.workers load.clients load.creates }
    requires opening { OpensEmpty book }
    ensures served { ServesOut (W.contents writer.old) (W.contents writer.new) result.ended }
    ensures left { BookGrows book result.book }
{
    if is_watched {
        let progress = Progress::new(rt, load);
        let served = run_over_book(rt, writer, book, load, &progress);
        if served.ended.is_ok() {
            progress.end();
        }
        return served;
    }
    run_over_book(rt, writer, book, load, &OpenGate)
}
