//! `cephmeta`: a metadata cluster in one process.
#![tactic(auto)]

ghost use Rattle.std.specs.Prelude.{◌≤◌};
ghost use Rattle.admin_cli.specs.Settings.{AreInRange};

mod stored;

use crate::stored::{Shape, script_stored, serve_stored};
use admin_cli::{Aloud, Mode, Options, ServeFault, Untold, run_new, run_script, serve, settings};
use std::io::{IsTerminal, Read};
use std::process::ExitCode;
use std::sync::Wait;
use std::thread::Threads;
use std::{env, io};

/// The exit status if the command line can't be read, also for want of memory.
const BAD_COMMAND_LINE: u8 = 2;

/// The exit status of a script or a run that ends in a fault.
const FAULT: u8 = 1;

fn main(rt: HostRuntime) -> io::Result<ExitCode> {
    let Ok(args) = env::args(&rt) else {
        return no_memory_for_words(&rt);
    };
    let words: Vec<String> = match args.collect(rt.alloc()) {
        Ok(words) => words,
        Err(_) => return no_memory_for_words(&rt),
    };
    match settings(rt.alloc(), words.as_slice()) {
        Ok(options) => run(&rt, &rt, &options),
        Err(error) => {
            if error.print(&rt).is_err() {
                eprintln!(rt; "cephmeta: write fault")?;
                return Ok(ExitCode::from(FAULT));
            }
            Ok(ExitCode::from(if error.use_stderr() {
                BAD_COMMAND_LINE
            } else {
                0
            }))
        }
    }
}

// Does what the command line asks for. `host` has the files and streams, `rt` runs threads.
fn run<H: AllocGlobal + Threads + Wait + Sync + Print + Eprint>(
    host: &HostRuntime,
    rt: &H,
    options: &Options,
) -> io::Result<ExitCode>
    requires { AreInRange options.now }
{
    match options {
        Options::Script {
            ranks,
            cache,
            limit,
            asks,
            history,
            store: None,
            explains,
        } => {
            let shape = Shape {
                ranks: *ranks,
                cache: *cache,
                limit: *limit,
            };
            let mode = Mode {
                asks: *asks,
                keeps: false,
                history: *history,
            };
            script(rt, host.reader(), shape, mode, *explains)
        }
        Options::Script {
            ranks,
            cache,
            limit,
            asks,
            history,
            store: Some(path),
            explains,
        } => {
            let mode = Mode {
                asks: *asks,
                keeps: true,
                history: *history,
            };
            let shape = Shape {
                ranks: *ranks,
                cache: *cache,
                limit: *limit,
            };
            Ok(status(script_stored(host, rt, path, shape, mode, *explains)?))
        }
        Options::Serve { load, store: None } => {
            let is_watched = host.stderr().is_terminal();
            let ended = serve(rt, &mut io::writer(rt), *load, is_watched);
            served(rt, ended)
        }
        Options::Serve {
            load,
            store: Some(path),
        } => Ok(status(serve_stored(host, rt, path, *load)?)),
    }
}

// The exit status of a run that went well, or that failed and has told why.
fn status(is_well: bool) -> ExitCode {
    ExitCode::from(if is_well { 0 } else { FAULT })
}

// Reports that there was no memory to read the command line.
fn no_memory_for_words(rt: &impl Eprint) -> io::Result<ExitCode> {
    eprintln!(rt; "cephmeta: out of memory")?;
    Ok(ExitCode::from(BAD_COMMAND_LINE))
}

// Runs a script over a new tree.
fn script<H: AllocGlobal + Threads + Sync + Print + Eprint, I: Read + Drop>(
    rt: &H,
    input: I,
    shape: Shape,
    mode: Mode,
    explains: bool,
) -> io::Result<ExitCode>
    requires one { 1 ≤ shape.ranks }
    requires few { shape.ranks ≤ 16 }
    requires least { 512 ≤ shape.cache }
    requires most { shape.cache ≤ 65536 }
{
    let writer = &mut io::writer(rt);
    let Shape {
        ranks,
        cache,
        limit,
    } = shape;
    let ended = if explains {
        run_new(
            rt,
            input,
            writer,
            ranks,
            cache,
            limit,
            mode,
            &Aloud::new(rt),
        )
    } else if mode.asks || mode.history.is_some() {
        run_new(rt, input, writer, ranks, cache, limit, mode, &Untold)
    } else {
        run_script(rt, input, writer, ranks, cache, limit)
    };
    match ended {
        Ok(()) => Ok(ExitCode::SUCCESS),
        Err(fault) => {
            eprintln!(rt; "{fault}")?;
            Ok(ExitCode::from(FAULT))
        }
    }
}

// The exit status of a run, whose fault is written to standard error.
fn served(rt: &impl Eprint, ended: Result<(), ServeFault>) -> io::Result<ExitCode> {
    if let Err(fault) = ended {
        eprintln!(rt; "cephmeta: {fault}")?;
        return Ok(ExitCode::from(FAULT));
    }
    Ok(ExitCode::SUCCESS)
}
