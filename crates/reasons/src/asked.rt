//! What a line asked of the cluster.

use crate::leaf::Leaf;
use mds_types::{Frag, Ino, Op, Rank, Request};
use script_output::{OwnStep, OwnTurn};
use script_text::{Command, ExportCommand, StoreCommand};

/// What a line asked, as far as its refusals tell of it.
#[derive(Clone, Copy)]
pub(crate) enum Asked<'a> {
    /// A request comes in at a rank.
    Arrive(Rank, &'a Request),
    /// An operation alone comes in at rank 0, and is served there.
    Operation(&'a Op),
    Serve(Rank),
    Own(Rank),
    Grant { rank: Rank, client: u64, tid: u64 },
    Split { rank: Rank, leaf: Leaf, bits: u8 },
    Merge { rank: Rank, whole: Leaf },
    /// Something of a directory.
    Dir(Ino),
    /// Whose a leaf is.
    Authority(Leaf),
    /// A commit of a leaf begins.
    Commit { rank: Rank, leaf: Leaf },
    /// A commit ends, or is given up.
    Job(u64),
    Flush,
    Evict(Rank),
    Start { from: Rank, leaf: Leaf, to: Rank },
    /// A later step of an export.
    Export(OwnStep, Leaf),
    Other,
}

/// What a command asked.
pub(crate) fn asked_of(command: &Command) -> Asked<'_> {
    match command {
        Command::Operation(op) => Asked::Operation(op),
        Command::Request(rank, request) => Asked::Arrive(*rank, request),
        Command::Serve(rank) => Asked::Serve(*rank),
        Command::Own(rank) => Asked::Own(*rank),
        Command::Split {
            rank,
            ino,
            frag,
            bits,
        } => Asked::Split {
            rank: *rank,
            leaf: leaf(*ino, *frag),
            bits: *bits,
        },
        Command::Merge { rank, ino, frag } => Asked::Merge {
            rank: *rank,
            whole: leaf(*ino, *frag),
        },
        Command::Leaves(ino) => Asked::Dir(*ino),
        Command::Grant { rank, client, tid } => Asked::Grant {
            rank: *rank,
            client: *client,
            tid: *tid,
        },
        Command::Authority { ino, frag } => Asked::Authority(leaf(*ino, *frag)),
        Command::Export(command) => asked_of_export(command),
        Command::Store(command) => asked_of_store(command),
        Command::History | Command::Subtrees => Asked::Other,
    }
}

// What a command on an export asked.
fn asked_of_export(command: &ExportCommand) -> Asked<'_> {
    match command {
        ExportCommand::Dir {
            from,
            ino,
            frag,
            to,
        } => Asked::Start {
            from: *from,
            leaf: leaf(*ino, *frag),
            to: *to,
        },
        ExportCommand::Freeze { ino, frag } => Asked::Export(OwnStep::Freeze, leaf(*ino, *frag)),
        ExportCommand::Prep { ino, frag } => Asked::Export(OwnStep::Prep, leaf(*ino, *frag)),
        ExportCommand::Send { ino, frag } => Asked::Export(OwnStep::Send, leaf(*ino, *frag)),
        ExportCommand::Import { ino, frag } => Asked::Export(OwnStep::Import, leaf(*ino, *frag)),
        ExportCommand::Finish { ino, frag } => Asked::Export(OwnStep::Finish, leaf(*ino, *frag)),
        ExportCommand::Cancel { ino, frag } => Asked::Export(OwnStep::Cancel, leaf(*ino, *frag)),
    }
}

// What a command on the store asked.
fn asked_of_store(command: &StoreCommand) -> Asked<'_> {
    match command {
        StoreCommand::CommitBegin { rank, ino, frag } | StoreCommand::Commit { rank, ino, frag } =>
            Asked::Commit {
                rank: *rank,
                leaf: leaf(*ino, *frag),
            },
        StoreCommand::CommitEnd(job) | StoreCommand::CommitDrop(job) => Asked::Job(*job),
        StoreCommand::CommitTree(ino) => Asked::Dir(*ino),
        StoreCommand::Flush => Asked::Flush,
        StoreCommand::Evict(rank) => Asked::Evict(*rank),
        StoreCommand::Purge | StoreCommand::Object(_) | StoreCommand::Objects => Asked::Other,
    }
}

/// What a rank asked of its own: a command on the same leaf would ask it.
pub(crate) fn asked_of_own<'a>(rank: Rank, turn: &OwnTurn) -> Asked<'a> {
    let at = leaf(turn.ino, turn.frag);
    match turn.step {
        OwnStep::Split => Asked::Split {
            rank,
            leaf: at,
            bits: 3,
        },
        OwnStep::Merge => Asked::Merge { rank, whole: at },
        OwnStep::Start => Asked::Other,
        step => Asked::Export(step, at),
    }
}

// A leaf of a directory.
fn leaf(dir: Ino, frag: Frag) -> Leaf {
    Leaf { dir, frag }
}
