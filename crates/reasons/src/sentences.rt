//! `Reason`, and its sentence.

use crate::authorities::NotIts;
use crate::exports::{Freezes, WrongState};
use crate::grants::Granted;
use crate::jobs::JobWhy;
use crate::lacking::Lacks;
use crate::leaves::{BadSplit, NoLeaf, TooMany};
use crate::names::Named;
use crate::requests::{Deferral, Forwarding};
use crate::room::Room;
use crate::waiting::Queue;
use mds_types::{Rank, Refusal};
use std::fmt;

/// Why a line was refused, deferred or forwarded. It is shown as a sentence: `refused 7 (pinned): 1:0* is granted to client 0,
/// request 3; it ends when that request is served`.
#[derive(Clone, Copy)]
pub struct Reason {
    pub(crate) told: Told,
    pub(crate) why: Why,
}

/// What the line printed.
#[derive(Clone, Copy)]
pub(crate) enum Told {
    Refused(Refusal),
    Deferred,
    Forwarded(Rank),
}

/// Which check it was, of which leaf, rank or request.
#[derive(Clone, Copy)]
pub(crate) enum Why {
    /// Nothing more than the refusal's own words.
    Plain(Refusal),
    Lacks(Lacks),
    NotIts(NotIts),
    Frozen(Freezes),
    Granted(Granted),
    NoLeaf(NoLeaf),
    BadSplit(BadSplit),
    TooMany(TooMany),
    Job(JobWhy),
    Export(WrongState),
    Queue(Queue),
    Room(Room),
    Deferral(Deferral),
    Forwarding(Forwarding),
}

/// The sentence, with no full stop: `refused N (NAME): WHY`, `deferred: WHY` or `forwarded R: WHY`.
impl fmt::Display for Reason {
    fn fmt<W: fmt::Write>(&self, f: &mut fmt::Formatter<W>) -> fmt::Result {
        let why = &self.why;
        match &self.told {
            Told::Refused(refusal) => {
                let number = refusal.number();
                let name = Named(*refusal);
                write!(f, "refused {number} ({name}): {why}")
            }
            Told::Deferred => write!(f, "deferred: {why}"),
            Told::Forwarded(Rank(rank)) => write!(f, "forwarded {rank}: {why}"),
        }
    }
}

impl fmt::Display for Why {
    fn fmt<W: fmt::Write>(&self, f: &mut fmt::Formatter<W>) -> fmt::Result {
        match self {
            Why::Plain(refusal) => write!(f, "{refusal}"),
            Why::Lacks(why) => write!(f, "{why}"),
            Why::NotIts(why) => write!(f, "{why}"),
            Why::Frozen(why) => write!(f, "{why}"),
            Why::Granted(why) => write!(f, "{why}"),
            Why::NoLeaf(why) => write!(f, "{why}"),
            Why::BadSplit(why) => write!(f, "{why}"),
            Why::TooMany(why) => write!(f, "{why}"),
            Why::Job(why) => write!(f, "{why}"),
            Why::Export(why) => write!(f, "{why}"),
            Why::Queue(why) => write!(f, "{why}"),
            Why::Room(why) => write!(f, "{why}"),
            Why::Deferral(why) => write!(f, "{why}"),
            Why::Forwarding(why) => write!(f, "{why}"),
        }
    }
}
