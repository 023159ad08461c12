//! The command line of `cephmeta`.
ghost use Rattle.std.specs.Prelude.{IfOk, IfSome};
ghost use Rattle.admin_cli.specs.Settings.{AreInRange};

use crate::workload::Load;
use clap::error::ErrorKind;
use clap::{Arg, ArgAction, ArgMatches, Command, Error, value_parser};
use mds_types::Limit;
use std::alloc::{AllocError, Global};

/// What the command line asks for.
#[derive(Clone, Copy, Debug, PartialEq, Eq)]
pub enum Options<'a> {
    /// A script over a cluster. It has so many ranks, each may cache so many fragments, and a directory may have so
    /// many entries.
    Script {
        ranks: u8,
        cache: u32,
        limit: Limit,
        /// Whether the line of a request also gets its answer.
        asks: bool,
        /// How many entries of the history are kept after each line; all, if none is given.
        history: Option<u32>,
        /// The file whose tree the script begins with, and which each flush is kept in.
        store: Option<&'a str>,
        /// Whether standard error tells why a line was refused, deferred or forwarded, or isn't a command.
        explains: bool,
    },
    /// Clients that create files, served by rank threads.
    Serve {
        load: Load,
        /// The file whose tree, an empty one, the load begins with, and in which the tree after the load is kept.
        store: Option<&'a str>,
    },
}

/// Reads the words of a command line, the first of which is the program's name. An error is a text for the user with an
/// exit status: 0 if help was asked for, otherwise 2.
pub fn settings<'a>(alloc: Global, words: &'a [String]) -> Result<Options<'a>, Error>
    ensures { IfOk result AreInRange }
{
    let mut program = program(alloc)?;
    if let Some(options) = read_words(&mut program, words)? {
        return Ok(options);
    }
    Err(program.error(ErrorKind::InvalidValue, "a number is out of its range")?)
}

// The options that the words ask for. None if a number is out of its range, which clap has checked before.
fn read_words<'a>(
    program: &mut Command<'a>,
    words: &'a [String],
) -> Result<Option<Options<'a>>, Error>
    ensures { IfOk result (λ asked. IfSome asked AreInRange) }
{
    let matches = program.try_get_matches_from_mut(words)?;
    if let Some(script) = matches.subcommand_matches("script") {
        return Ok(of_script(script));
    }
    Ok(of_serve(&matches))
}

// The options of the subcommand `script`, if its numbers are in their ranges.
fn of_script<'a>(script: &ArgMatches<'a>) -> Option<Options<'a>>
    ensures { IfSome result AreInRange }
{
    let ranks = script.get_one::<u8>("ranks")?;
    let cache = script.get_one::<u32>("cache")?;
    let limit = Limit::new(script.get_one::<u32>("limit")?)?;
    if 1 <= ranks && ranks <= 16 && 512 <= cache && cache <= 65536 {
        return Some(Options::Script {
            ranks,
            cache,
            limit,
            asks: script.get_flag("ask"),
            history: script.get_one::<u32>("history"),
            store: script.get_str("store"),
            explains: script.get_flag("explain"),
        });
    }
    None
}

// The options of the subcommand `serve`, if it was given and its numbers are in their ranges.
fn of_serve<'a>(matches: &ArgMatches<'a>) -> Option<Options<'a>>
    ensures { IfSome result AreInRange }
{
    let serve = matches.subcommand_matches("serve")?;
    let load = Load {
        ranks: serve.get_one::<u8>("ranks")?,
        workers: serve.get_one::<u8>("workers")?,
        clients: serve.get_one::<u8>("clients")?,
        creates: serve.get_one::<u16>("creates")?,
    };
    if load.is_in_range() {
        return Some(Options::Serve {
            load,
            store: serve.get_str("store"),
        });
    }
    None
}

// The help for the lines of a script.
const LINES: &str = "\
A line of the script is one of these, and one line is printed for each. Directories are named by
inode number in hexadecimal, the root is 1; a fragment is written as its bits and a star, as 01*.
Empty lines, lines of spaces and lines that begin with # print nothing.

Operations (OP), served at rank 0:
  lookup INO NAME                   readdir INO AFTER MAX (AFTER - for none)
  create INO NAME MODE [uid N] [gid N]
  mkdir INO NAME MODE [uid N] [gid N]
  symlink INO NAME TARGET [uid N] [gid N]
  setattr INO NAME [mode MODE] [size N] [mtime N] [uid N] [gid N]
  readlink INO NAME                 setpin INO NAME RANK (RANK -1 for none)
  unlink INO NAME                   rmdir INO NAME
  rename INO NAME INO NAME
Clients:
  req RANK CLIENT TID OLDEST OP     serve RANK
Ranks:
  grant RANK CLIENT TID             get subtrees
  authority INO FRAG                own RANK
Fragments:
  dirfrag split RANK INO FRAG NB    dirfrag merge RANK INO FRAG
  dirfrag ls INO
Exports, in this order:
  export dir FROM INO FRAG TO       export freeze INO FRAG
  export prep INO FRAG              export send INO FRAG
  export import INO FRAG            export finish INO FRAG
  export cancel INO FRAG (before send)
Commits and the store:
  commit RANK INO FRAG              begin RANK INO FRAG
  end JOB                           drop JOB
  tree INO                          purge
  flush                             evict RANK
  object NAME                       objects
  history

In names and targets % and two hexadecimal digits stand for a byte.";

// The command that clap parses.
fn program<'a>(alloc: Global) -> Result<Command<'a>, AllocError> {
    Command::new(alloc, "cephmeta")
        .about("A metadata cluster in one process")
        .version("0.1.0")
        .subcommand_required(true)
        .subcommand(script(alloc)?)?
        .subcommand(serve(alloc)?)
}

// The subcommand `script`.
fn script<'a>(alloc: Global) -> Result<Command<'a>, AllocError> {
    Command::new(alloc, "script")
        .about("Runs a script from standard input over a cluster: an empty tree, or that of a file")
        .after_help(LINES)
        .arg(ranks(alloc))?
        .arg(cache(alloc))?
        .arg(limit(alloc))?
        .arg(ask(alloc))?
        .arg(explain(alloc))?
        .arg(history(alloc))?
        .arg(file(alloc))
}

// The help behind the options of `serve`.
const SERVE_HELP: &str = "\
Each client has a directory, c0 for the first. The ranks' threads create f0, f1 and so on in each and
commit it after each tenth, while the workers encode what is committed. Then it prints how many requests
were served, whether all replies agree with the history, and every path.

Example:
  cephmeta serve --ranks 4 --workers 4 --clients 8 --creates 50";

// The subcommand `serve`.
fn serve<'a>(alloc: Global) -> Result<Command<'a>, AllocError> {
    Command::new(alloc, "serve")
        .about("Serves clients that create files by several threads, and audits the replies")
        .after_help(SERVE_HELP)
        .arg(ranks(alloc))?
        .arg(workers(alloc))?
        .arg(clients(alloc))?
        .arg(creates(alloc))?
        .arg(file(alloc))
}

fn ranks<'a>(alloc: Global) -> Arg<'a> {
    Arg::new(alloc, "ranks")
        .long("ranks")
        .value_name("N")
        .value_parser(value_parser!(u8).range(1..=16))
        .default_value("1")
        .help("Metadata server ranks in the cluster, 1 to 16")
}

fn cache<'a>(alloc: Global) -> Arg<'a> {
    Arg::new(alloc, "cache")
        .long("cache")
        .value_name("M")
        .value_parser(value_parser!(u32).range(512..=65536))
        .default_value("4096")
        .help("Fragments that a rank may cache, 512 to 65536")
}

fn limit<'a>(alloc: Global) -> Arg<'a> {
    Arg::new(alloc, "limit")
        .long("limit")
        .value_name("L")
        .value_parser(value_parser!(u32).range(1..=1_048_576))
        .default_value("1048576")
        .help("Entries that a directory may have, 1 to 1048576")
}

fn ask<'a>(alloc: Global) -> Arg<'a> {
    Arg::new(alloc, "ask")
        .long("ask")
        .action(ArgAction::SetTrue)
        .help("Bring each request to its answer by its own line")
}

fn explain<'a>(alloc: Global) -> Arg<'a> {
    Arg::new(alloc, "explain")
        .long("explain")
        .action(ArgAction::SetTrue)
        .help("Say on standard error why a line was refused, deferred or forwarded")
}

fn history<'a>(alloc: Global) -> Arg<'a> {
    Arg::new(alloc, "history")
        .long("history")
        .value_name("N")
        .value_parser(value_parser!(u32))
        .help("Forget behind each line all but the last N requests of the history")
}

fn file<'a>(alloc: Global) -> Arg<'a> {
    Arg::new(alloc, "store")
        .long("store")
        .value_name("FILE")
        .help("Keep the tree in FILE, which is created where it does not exist")
}

fn workers<'a>(alloc: Global) -> Arg<'a> {
    Arg::new(alloc, "workers")
        .long("workers")
        .value_name("W")
        .value_parser(value_parser!(u8).range(1..=16))
        .default_value("1")
        .help("Threads that encode commits, 1 to 16")
}

fn clients<'a>(alloc: Global) -> Arg<'a> {
    Arg::new(alloc, "clients")
        .long("clients")
        .value_name("C")
        .value_parser(value_parser!(u8).range(1..=64))
        .default_value("8")
        .help("Clients, each with a directory, 1 to 64")
}

fn creates<'a>(alloc: Global) -> Arg<'a> {
    Arg::new(alloc, "creates")
        .long("creates")
        .value_name("K")
        .value_parser(value_parser!(u16).range(0..=1000))
        .default_value("50")
        .help("Files that each client creates, 0 to 1000")
}
