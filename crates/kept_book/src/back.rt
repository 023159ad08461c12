//! A cluster after a crash.
ghost use Rattle.std.specs.Prelude.{◌≡◌, ◌≤◌, [], IfOk};
ghost use Rattle.cold_store.specs.ColdTree.{IsColdTree};
ghost use Rattle.cluster_core.specs.Opening.{fresh};
ghost use Rattle.cluster_core.specs.Sound.{StandsBehind};
ghost use Rattle.cluster_core.specs.State.{shown};
ghost use Rattle.object_tables.specs.Noted.{none_noted};
ghost use Rattle.sqlite_trees.specs.View.{IsClean};
ghost use Rattle.kept_book.specs.Survives.{ComesBack};

use cluster_core::{Book, mount};
use cold_store::laws::has_one_cold_tree;
use kept_store::Kept;
use mds_types::{Limit, Refusal};
use sqlite_trees::store::Reopen;
use std::alloc::Global;

/// Reopens a store after a crash, and mounts a cluster over it. If nothing was noted and the disk is honest, the tree
/// is the cold tree of the objects that the store had.
pub fn come_back<T: Reopen + Drop>(
    alloc: Global,
    kept: Kept<T>,
    ranks: u8,
    cache: u32,
    limit: Limit,
) -> Result<Book<Kept<T>>, Option<Refusal>>
    requires some { 1 ≤ ranks }
    requires ranked { ranks ≤ 16 }
    requires least { 512 ≤ cache }
    requires most { cache ≤ 65536 }
    ensures back { IfOk result (λ book. ComesBack T.Store.view T.Store.recovers kept (shown book.core.state)) }
    ensures honest { ((t : T) → IsClean (T.Store.view t)) → kept.noted ≡ none_noted → IfOk result (λ book. IsColdTree kept.objects (shown book.core.state)) }
    ensures goes_on { IfOk result (λ book. StandsBehind (fresh (shown book.core.state)) [] book) }
{
    has_one_cold_tree();
    let Ok(store) = kept.revive(alloc) else {
        return Err(None);
    };
    match mount(alloc, store, ranks, cache, limit) {
        Ok(book) => Ok(book),
        Err(back) => Err(Some(back.0)),
    }
}
