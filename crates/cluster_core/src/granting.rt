//! Grants: a rank lets a waiting request change the rank's fragments.
ghost use Rattle.std.specs.Prelude.{◌≡◌, ◌+◌, ◌<◌, List, IfErr, IfOk, MatchBool, OnErr, OnOk, length};
ghost use Rattle.objstore.specs.Objects.{faults_told};
ghost use Rattle.std.specs.Result.{result_err};
ghost use Rattle.mds_types.specs.declared.entries.Entry.{Entry as Applied};
ghost use Rattle.inboxes.specs.Inboxes.{first_waiting};
ghost use Rattle.cluster_core.specs.State.{cluster_of, held_roots};
ghost use Rattle.cluster_core.specs.Steps.{TreeMayRefuse};
ghost use Rattle.cluster_core.specs.Uses.{UsesWaiting};
ghost use Rattle.cluster_core.specs.Grants.{AreHeldAmong, AreThawedEach, FindsNone, GrantsWaiting, HoldsOne, IsOneFrozen, with_grants};

use crate::events::Answer;
use crate::parts::Parts;
use inboxes::{Pin, Pins};
use mds_types::{Frag, Ino, Rank, Refusal};
use namespace_ops::{changes, locate};
use objstore::Store;
use std::alloc::{AllocError, Global};

impl<S: Store + Drop> Parts<S> {
    /// A rank grants the first waiting copy of a request all fragments of the rank that it would change now, if none of
    /// them is frozen. Takes memory for the list of them, and for the grants, which are made on a copy: a refusal
    /// changes nothing.
    pub(crate) fn grant_first(
        &mut self,
        alloc: Global,
        rank: Rank,
        client: u64,
        tid: u64,
    ) -> Result<Answer, Refusal>
        ensures granted { (past : List Applied) → GrantsWaiting (cluster_of self.old).state (cluster_of self.new).state
            past past (TreeMayRefuse (cluster_of self.old) (cluster_of self.new)) rank client tid result }
        ensures uses { UsesWaiting (cluster_of self.old).state.tree (held_roots (cluster_of self.old).state)
            (cluster_of self.old).caches (cluster_of self.new).caches (result_err result)
            (first_waiting client tid (cluster_of self.old).state.inboxes) }
        ensures same { (cluster_of self.new).state.tree ≡ (cluster_of self.old).state.tree }
        ensures roots { (cluster_of self.new).state.roots ≡ (cluster_of self.old).state.roots }
        ensures exports { (cluster_of self.new).state.exports ≡ (cluster_of self.old).state.exports }
        ensures count { length (cluster_of self.new).caches.used ≡ length (cluster_of self.old).caches.used }
        ensures cap { (cluster_of self.new).caches.cap ≡ (cluster_of self.old).caches.cap }
        ensures counted { (cluster_of self.new).faults
            ≡ (cluster_of self.old).faults + faults_told (result_err result) }
    {
        let Some(request) = self.waiting.inboxes.find(client, tid) else {
            return Err(Refusal::InboxEmpty)
        };
        let places = locate(&self.tree, rank, &request.op);
        let limit = self.tree.limit();
        let changed = changes(alloc, &mut self.tree, limit, &request.op, places)?;
        let mine = match self.some_held(alloc, rank, &changed) {
            Ok(mine) => mine,
            Err(refusal) => return Err(refusal),
        };
        pin_all(&mut self.waiting.pins, client, tid, &mine)?;
        Ok(Answer::Nothing)
    }

    // Those leaves whose authority is a rank. Refused `NotAuthority` exactly where there is none, `Frozen` if one of
    // them is frozen, and `NoMemory` only where there is one.
    fn some_held(
        &self,
        alloc: Global,
        rank: Rank,
        leaves: &Vec<(Ino, Frag)>,
    ) -> Result<Vec<(Ino, Frag)>, Refusal>
        ensures held { IfOk result
            (λ held. AreHeldAmong (cluster_of self.now).state rank leaves.now.items held.items) }
        ensures some { IfOk result (λ held. 0 < length held.items) }
        ensures thawed { IfOk result (λ held. AreThawedEach (cluster_of self.now).state held.items) }
        ensures refused { IfErr result (FindsNone (cluster_of self.now).state rank leaves.now.items) }
    {
        let held = self.held_among(alloc, rank, leaves)?;
        if held.is_empty() {
            return Err(Refusal::NotAuthority);
        }
        if self.is_one_frozen(&held) {
            return Err(Refusal::Frozen);
        }
        Ok(held)
    }

    // Whether one of some leaves is frozen.
    fn is_one_frozen(&self, leaves: &Vec<(Ino, Frag)>) -> bool
        ensures { MatchBool result (IsOneFrozen (cluster_of self.now).state leaves.now.items)
            (AreThawedEach (cluster_of self.now).state leaves.now.items) }
    {
        for leaf in leaves {
            if self.tree.is_frozen(leaf.0, leaf.1) {
                return true;
            }
        }
        false
    }

    // Those leaves whose authority is a rank. Memory can be refused only where there is one.
    fn held_among(
        &self,
        alloc: Global,
        rank: Rank,
        leaves: &Vec<(Ino, Frag)>,
    ) -> Result<Vec<(Ino, Frag)>, AllocError>
        ensures held { IfOk result
            (λ held. AreHeldAmong (cluster_of self.now).state rank leaves.now.items held.items) }
        ensures one { OnErr result (HoldsOne (cluster_of self.now).state rank leaves.now.items) }
    {
        let mut held = Vec::new(alloc);
        for leaf in leaves {
            if self.tree.is_authority(rank, leaf.0, leaf.1) {
                held.push(*leaf)?;
            }
        }
        Ok(held)
    }
}

// Grants all these leaves to a request; or none, if memory is refused.
fn pin_all(
    pins: &mut Pins,
    client: u64,
    tid: u64,
    leaves: &Vec<(Ino, Frag)>,
) -> Result<(), AllocError>
    ensures ok { OnOk result (pins.new ≡ with_grants pins.old leaves.now.items client tid) }
    ensures err { OnErr result (pins.new ≡ pins.old) }
{
    *pins = granted(pins, client, tid, leaves)?;
    Ok(())
}

// A copy of the grants, with these leaves granted to a request.
fn granted(
    pins: &Pins,
    client: u64,
    tid: u64,
    leaves: &Vec<(Ino, Frag)>,
) -> Result<Pins, AllocError>
    ensures { IfOk result (λ more. more ≡ with_grants pins.now leaves.now.items client tid) }
{
    let mut more = pins.try_clone()?;
    for leaf in leaves {
        more.pin(Pin {
            dir: leaf.0,
            frag: leaf.1,
            client,
            tid,
        })?;
    }
    Ok(more)
}
