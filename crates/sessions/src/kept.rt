//! What is kept of a client, to be stored.
ghost use Rattle.std.specs.Prelude.{◌≡◌, length};
ghost use Rattle.std.specs.Iterator.{at_most};
ghost use Rattle.std.specs.Map.Iter.{TakesFirst};
ghost use Rattle.std.specs.FinMap as map;
ghost use Rattle.mds_types.specs.declared.entries.Entry.{Entry as Applied};

use crate::clients::Client;
use mds_types::{Entry, Reply};
use sorted_map::Iter;
use std::marker::Model;

/// What is kept of a client: its mark, and the replies at or above it.
#[derive(Drop)]
pub struct ClientKept<'a> {
    pub mark: u64,
    pub replies: Replies<'a>,
}

/// The replies that are kept of a client, with their transaction numbers and in the order of these.
#[derive(Drop)]
pub struct Replies<'a> {
    pub(crate) places: Iter<'a, u64, usize>,
    pub(crate) client: &'a Client,
    pub(crate) history: &'a [Entry],
    pub(crate) forgotten: usize,
}

impl<'a> Model for Replies<'a> {
    ghost use Rattle.std.specs.Prelude.{List, ℕ};
    ghost use Rattle.std.specs.List.{AllByRecursion};
    ghost use Rattle.mds_types.specs.declared.replies.Reply.{Reply};
    ghost use Rattle.sessions.specs.Replies.{IsInReach, replies_at};

    ghost Value = { List (ℕ × Reply) };

    ghost view = { λ r. replies_at r.history.now r.forgotten r.client.now.row.aside r.places };

    ghost invariant = { λ r.
        AllByRecursion (IsInReach r.history.now r.forgotten r.client.now.row.aside) r.places };
}

impl<'a> Iterator for Replies<'a> {
    type Item = (u64, &'a Reply);

    ghost next_gives = { TakesFirst (λ told. (told.0, told.1.now)) };

    ghost remaining = { λ s. at_most (length s) };

    fn next(&mut self) -> Option<(u64, &'a Reply)> {
        let client = self.client;
        let (tid, place) = *self.places.next()?;
        let reply = client.told(self.history, self.forgotten, tid, place);
        Some((tid, reply))
    }
}
