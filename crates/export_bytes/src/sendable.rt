//! Which exports may be sent.
ghost use Rattle.std.specs.Prelude.{◌≡◌, ◌<◌, ◌==◌, ◌^◌, ◌&&◌, nat_lt, not, true};
ghost use Rattle.std.specs.List.{list_all};
ghost use Rattle.dirfrag_codec.specs.EntryRecord.{entry_bytes};
ghost use Rattle.dirfrag_codec.specs.Values.{is_fragment, is_written};
ghost use Rattle.export_bytes.specs.Export.{has_record, is_base_of, is_sendable, is_sent_frag, is_sent_name};

use crate::exports::{Export, SentFrag};
use crate::rising::{frags_rise, names_rise};
use cached_frag::Base;
use dirfrag_codec::{has_widths, is_recordable};
use mds_types::{Frag, Ino, Inode, Name, Rank};

/// Whether an export may be encoded: exporter and importer are two ranks of 16, and the fragments rise by inode and
/// value, each with dirty names that rise and whose inodes a record allows. A fragment whose object counts has a commit
/// version of 1 at least, and some dirty names. Takes no memory.
pub fn is_sendable(export: &Export) -> bool
    ensures { result ≡ is_sendable export.now }
{
    knows_leaf(export.ino, export.frag);
    let frags = export.frags.as_slice();
    are_two_ranks(export.exporter, export.importer)
        && is_count(frags.len())
        && frags_rise(frags)
        && are_sent_frags(frags)
}

// What holds of each leaf, by its type.
fn knows_leaf(ino: Ino, frag: Frag)
    ensures { (nat_lt ino.0 (2 ^ 64) && is_fragment frag) ≡ true }
{
    let _ = ino.0;
    let _ = frag.bits();
}

// Whether these are two ranks of 16.
fn are_two_ranks(one: Rank, other: Rank) -> bool
    ensures { result ≡ (nat_lt one.0 16 && (nat_lt other.0 16 && not (one.0 == other.0))) }
{
    one.0 < 16 && other.0 < 16 && one.0 != other.0
}

// Whether a count has 32 bits.
fn is_count(count: usize) -> bool
    ensures { result ≡ nat_lt count (2 ^ 32) }
{
    count < 1 << 32
}

fn are_sent_frags(frags: &[SentFrag]) -> bool
    ensures { result ≡ list_all is_sent_frag frags.now }
{
    for frag in frags {
        if !is_sent_frag(frag) {
            return false;
        }
    }
    true
}

fn is_sent_frag(sent: &SentFrag) -> bool
    ensures { result ≡ is_sent_frag sent.now }
{
    knows_leaf(sent.ino, sent.frag);
    let names = sent.names.as_slice();
    is_base_of(sent.base, names.len())
        && is_count(names.len())
        && names_rise(names)
        && are_sent_names(names)
}

// Whether a fragment that isn't clean has this base and so many dirty names.
fn is_base_of(base: Base, count: usize) -> bool
    ensures { result ≡ is_base_of base count }
{
    match base {
        Base::Fresh => true,
        Base::Stored(version) => version > 0 && count > 0,
    }
}

fn are_sent_names(names: &[(Name, Option<Inode>)]) -> bool
    ensures { result ≡ list_all is_sent_name names.now }
{
    for sent in names {
        if !is_sent_name(sent) {
            return false;
        }
    }
    true
}

fn is_sent_name(sent: &(Name, Option<Inode>)) -> bool
    ensures { result ≡ is_sent_name sent.now }
{
    // of a name that is asked for its bytes it is known that it is one
    let _ = sent.0.as_bytes();
    has_record(&sent.1)
}

fn has_record(inode: &Option<Inode>) -> bool
    ensures { result ≡ has_record inode.now }
{
    match inode {
        Some(inode) => is_recorded(inode),
        None => true,
    }
}

fn is_recorded(inode: &Inode) -> bool
    ensures { result ≡ is_written (entry_bytes inode.now) inode.now }
{
    has_widths(inode);
    is_recordable(inode)
}
