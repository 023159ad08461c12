//! Commands on authorities: grants, the subtree map, and the authority of a leaf.
ghost use Rattle.std.specs.Prelude.{◌≡◌, IfOk};
ghost use Rattle.cluster_core.specs.declared.events.Event.TheVariants.{Grant};
ghost use Rattle.admin_cli.specs.Authorities.{ListsSubtrees, TellsLine, roots_in};
ghost use Rattle.admin_cli.specs.StepLines.{DoesEvent};
ghost use Rattle.admin_cli.specs.Admin.{seen};

use crate::commands::Admin;
use cluster_core::Event;
use keeping::Keep;
use mds_types::{Frag, Ino, Rank};
use script_output::{OutputLine, Root, RootList};
use std::alloc::{AllocError, Global};
use subtree_map::Subtrees;

impl<S: Keep + Drop> Admin<S> {
    // A rank grants a waiting request those of the rank's fragments that it would change.
    #[inline(never)]
    pub(crate) fn grant(&mut self, alloc: Global, rank: Rank, client: u64, tid: u64) -> OutputLine
        ensures { DoesEvent (seen self.old) (seen self.new) (Grant rank client tid) result }
    {
        self.step(alloc, Event::Grant { rank, client, tid })
    }

    // Lists the subtree roots with their ranks. The memory for the list is the script's own, so nothing is refused.
    #[inline(never)]
    pub(crate) fn subtrees(&self, alloc: Global) -> Result<OutputLine, AllocError>
        ensures { IfOk result (ListsSubtrees self.now.book.core.state) }
    {
        let roots = root_list(alloc, self.book.cluster().roots())?;
        Ok(OutputLine::Subtrees(roots))
    }

    // Tells which rank is the authority of a leaf.
    #[inline(never)]
    pub(crate) fn authority(&self, ino: Ino, frag: Frag) -> OutputLine
        ensures { TellsLine self.now.book.core.state ino frag result }
    {
        match self.book.cluster().authority(ino, frag) {
            Ok(rank) => OutputLine::Authority(rank),
            Err(refusal) => OutputLine::Refused(refusal),
        }
    }
}

// The subtree roots with their ranks, in the order of the map.
fn root_list(alloc: Global, subtrees: &Subtrees) -> Result<RootList, AllocError>
    ensures { IfOk result (λ roots. roots ≡ roots_in subtrees.now.roots) }
{
    let mut roots = Vec::new(alloc);
    for row in subtrees.iter() {
        let ((ino, frag), rank) = row;
        roots.push(Root { ino, frag, rank })?;
    }
    Ok(RootList::from_vec(roots))
}
