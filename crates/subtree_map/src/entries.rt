//! What a rank's list says of a leaf, and what it says once it has heard news of it.
ghost use Rattle.std.specs.Prelude.{◌≡◌};
ghost use Rattle.subtree_map.specs.Lists.{claimed, demoted, entry_or_nothing, heard, known_after, knows, learnt, promised_after, row_if_told};

use mds_types::Rank;

/// What a rank knows of whose a leaf is.
#[derive(Clone, Copy, Debug)]
pub(crate) enum Known {
    /// Nothing.
    Nothing,
    /// It is this rank's root.
    Claim(Rank),
    /// It was a root of this other rank when this one last heard of it, which may be long ago.
    Hint(Rank),
}

/// A row of a rank's list: what the rank knows of a leaf, and whether the leaf is promised to it.
#[derive(Clone, Copy, Debug)]
pub(crate) struct Entry {
    pub(crate) known: Known,
    pub(crate) promised: Option<Rank>,
}

/// What all ranks are told of a leaf.
#[derive(Clone, Copy, Debug)]
pub(crate) enum News {
    /// It is a root of this rank.
    Claimed(Rank),
    /// It is a root of this rank, as was promised.
    Handed(Rank),
    /// It is no root any more.
    Ended,
    /// It is promised to this rank.
    Promised(Rank),
    /// It is promised to no rank any more.
    Withdrawn,
}

/// What a list says of a leaf that has heard the news, where it is that of the rank that the news names, or another's.
pub(crate) fn heard(was: Option<Entry>, own: bool, news: News) -> Option<Entry>
    ensures { result ≡ heard was own news }
{
    let was = entry_of(was);
    row_of(Entry {
        known: known_after(was.known, own, news),
        promised: promised_after(was.promised, own, news),
    })
}

/// What a list says of a leaf that has heard whose it is: where it doesn't claim it, it has a hint on it.
pub(crate) fn learnt(was: Option<Entry>, rank: Rank) -> Entry
    ensures { result ≡ learnt was rank }
{
    let was = entry_of(was);
    Entry {
        known: knows(was.known, rank),
        promised: was.promised,
    }
}

fn knows(known: Known, rank: Rank) -> Known
    ensures { result ≡ knows known rank }
{
    match known {
        Known::Nothing => Known::Hint(rank),
        Known::Claim(was) => Known::Claim(was),
        Known::Hint(_) => Known::Hint(rank),
    }
}

/// The rank that a row claims a leaf for.
pub(crate) fn claimed(entry: &Entry) -> Option<Rank>
    ensures { result ≡ claimed entry.now }
{
    match entry.known {
        Known::Nothing => None,
        Known::Claim(rank) => Some(rank),
        Known::Hint(_) => None,
    }
}

// A list without a row for a leaf says nothing of it.
fn entry_of(row: Option<Entry>) -> Entry
    ensures { result ≡ entry_or_nothing row }
{
    match row {
        Some(entry) => entry,
        None => Entry {
            known: Known::Nothing,
            promised: None,
        },
    }
}

// A row that says nothing isn't kept.
fn row_of(entry: Entry) -> Option<Entry>
    ensures { result ≡ row_if_told entry }
{
    match entry.known {
        Known::Nothing => match entry.promised {
            None => None,
            Some(_) => Some(entry),
        },
        Known::Claim(_) => Some(entry),
        Known::Hint(_) => Some(entry),
    }
}

fn known_after(known: Known, own: bool, news: News) -> Known
    ensures { result ≡ known_after known own news }
{
    match news {
        News::Claimed(rank) => match own {
            true => Known::Claim(rank),
            false => demoted(known, rank),
        },
        News::Handed(rank) => match own {
            true => Known::Claim(rank),
            false => demoted(known, rank),
        },
        News::Ended => Known::Nothing,
        News::Promised(_) => known,
        News::Withdrawn => known,
    }
}

// Another rank's claim is a hint from then on.
fn demoted(known: Known, rank: Rank) -> Known
    ensures { result ≡ demoted known rank }
{
    match known {
        Known::Nothing => Known::Nothing,
        Known::Claim(_) => Known::Hint(rank),
        Known::Hint(was) => Known::Hint(was),
    }
}

fn promised_after(was: Option<Rank>, own: bool, news: News) -> Option<Rank>
    ensures { result ≡ promised_after was own news }
{
    match news {
        News::Claimed(_) => was,
        News::Handed(_) => None,
        News::Ended => was,
        News::Promised(rank) => match own {
            true => Some(rank),
            false => None,
        },
        News::Withdrawn => None,
    }
}
