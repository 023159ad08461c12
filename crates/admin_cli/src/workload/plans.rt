//! The plan of each rank's thread: creates in the directories of its rank, and commits.
ghost use Rattle.std.specs.Prelude.{◌≡◌, IfSome, vec_len};

use crate::workload::setup::Home;
use cluster_core::Event;
use mds_types::{Birth, Dentry, Frag, Mode, Name, Op, Rank, Request};
use rank_threads::Turn;
use std::alloc::Global;

/// A plan for each rank. The plan creates so many files in each directory of the rank: the first file in each
/// directory, then the second in each, and so on. After each tenth file of a directory it commits the directory and
/// takes an own turn.
pub(crate) fn plans_of(
    alloc: Global,
    ranks: u8,
    homes: &[Home],
    creates: u16,
) -> Option<Vec<Vec<Turn>>>
    ensures { IfSome result (λ plans. vec_len plans ≡ ranks) }
{
    let mut plans = Vec::new(alloc);
    for rank in 0..ranks {
        let plan = plan_of(alloc, Rank(rank), homes, creates)?;
        if plans.push(plan).is_err() {
            return None;
        }
    }
    Some(plans)
}

// The plan of one rank.
fn plan_of(alloc: Global, rank: Rank, homes: &[Home], creates: u16) -> Option<Vec<Turn>> {
    let mut turns = Vec::new(alloc);
    for number in 0..creates {
        add_round(alloc, &mut turns, rank, homes, number)?;
    }
    Some(turns)
}

// Adds the creates of one number, in each directory of the rank.
fn add_round(
    alloc: Global,
    turns: &mut Vec<Turn>,
    rank: Rank,
    homes: &[Home],
    number: u16,
) -> Option<()> {
    for home in homes {
        if home.rank == rank {
            add_create(alloc, turns, *home, number)?;
        }
    }
    Some(())
}

// Adds a create at the rank of its directory, and after each tenth a commit and an own turn of the rank.
fn add_create(alloc: Global, turns: &mut Vec<Turn>, home: Home, number: u16) -> Option<()> {
    let Home { client, dir, rank } = home;
    let tid = u64::from(number) + 2;
    let request = Request {
        client,
        tid,
        oldest: tid,
        op: create(alloc, home, number)?,
    };
    let arrive = Event::Arrive { rank, request };
    turns.push(Turn::Step(arrive)).ok()?;
    turns.push(Turn::Step(Event::Serve { rank })).ok()?;
    if number % 10 == 9 {
        let commit = Turn::Commit {
            ino: dir,
            frag: Frag::ROOT,
        };
        turns.push(commit).ok()?;
        turns.push(Turn::Own).ok()?;
    }
    Some(())
}

// The operation that creates the file of this number.
fn create(alloc: Global, home: Home, number: u16) -> Option<Op> {
    let mode = Mode::new(0o644)?;
    let text = format!(in alloc; "f{number}").ok()?;
    let name = Name::from_bytes(alloc, text.as_bytes()).ok()?;
    Some(Op::Create {
        dentry: Dentry {
            dir: home.dir,
            name,
        },
        mode,
        birth: Birth::OF_ROOT,
    })
}
