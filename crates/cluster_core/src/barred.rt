//! Whether a request must wait, since its rank may not change a leaf that it would change.
ghost use Rattle.std.specs.Prelude.{◌≡◌, ◌↔◌, true, IsTrue, MatchBool, IfSome};
ghost use Rattle.mds_types.specs.Leaf.{leaf_of};
ghost use Rattle.mds_types.specs.Tree.{is_directory};
ghost use Rattle.mds_types.specs.declared.requests.Request.{Request as Asking};
ghost use Rattle.namespace_ops.specs.Changes.{Carries, LieHeld, fragments_of, leaf_put, leaf_taken, leaves, leaves_gone};
ghost use Rattle.cluster_core.specs.Master.{IsAtHolder, IsCheckedIn, LacksOneOf, MayTouch, MayTouchAll, MayTouchEach, MustWait};
ghost use Rattle.cluster_core.specs.Serve.{AtFront};
ghost use Rattle.cluster_core.specs.State.{cluster_of, shown};
ghost use Rattle.inboxes.specs.Inboxes.{waiting_at};

use crate::parts::Parts;
use inboxes::Pin;
use mds_types::{Dirfrag, Ino, Rank, Request};
use namespace_ops::{Change, Checked, Frags};
use objstore::Store;
use subtree_map::end_of;

impl<S: Store + Drop> Parts<S> {
    /// Whether the request at the front of a rank's inbox has to wait: its operation would change a leaf that is
    /// frozen, or a leaf of another authority that isn't granted to this request. `checked` is the result of the
    /// operation's checks. Takes no memory.
    pub(crate) fn must_wait(&self, rank: Rank, checked: &Checked) -> bool
        requires { AtFront (λ request rest. IsCheckedIn (cluster_of self.now).state request.op checked.now)
            (waiting_at (cluster_of self.now).state.inboxes rank) }
        ensures { MatchBool result
            (AtFront (λ request rest. MustWait (cluster_of self.now).state rank request)
            (waiting_at (cluster_of self.now).state.inboxes rank))
            (AtFront (λ request rest. MayTouchAll (cluster_of self.now).state rank request)
            (waiting_at (cluster_of self.now).state.inboxes rank)) }
    {
        match checked {
            Checked::Answers(_) => false,
            Checked::Changes(change) => {
                let Some(request) = self.waiting.inboxes.front(rank) else {
                    unreachable!()
                };
                self.lacks_one(rank, request, change)
            }
        }
    }

    // Whether one of the leaves of a change may not be changed: those of its names, and all leaves of a directory that
    // it removes.
    fn lacks_one(&self, rank: Rank, request: &Request, change: &Change) -> bool
        requires held { LieHeld (IsAtHolder (cluster_of self.now).state) change.now }
        requires carries { Carries (shown (cluster_of self.now).state) (cluster_of self.now).state.tree.covers
            change.now }
        requires gone { IfSome change.now.gone
            (λ dir. is_directory (shown (cluster_of self.now).state) dir.0 ≡ true) }
        ensures { MatchBool result
            (LacksOneOf (cluster_of self.now).state rank request.now
            (fragments_of (cluster_of self.now).state.tree.covers change.now))
            (MayTouchEach (cluster_of self.now).state rank request.now
            (fragments_of (cluster_of self.now).state.tree.covers change.now)) }
    {
        if !self.may_take(rank, request, change) {
            return true;
        }
        if !self.may_put(rank, request, change) {
            return true;
        }
        if self.goes_along(rank, change) {
            return false;
        }
        self.lacks_gone(rank, request, change.gone)
    }

    // Whether the rank surely may change all leaves of the removed directory. They aren't looked at: they inherit the
    // authority of the leaf that has the directory's name. If the result is false, `lacks_gone` looks at each leaf.
    fn goes_along(&self, rank: Rank, change: &Change) -> bool
        requires held { LieHeld (IsAtHolder (cluster_of self.now).state) change.now }
        requires carries { Carries (shown (cluster_of self.now).state) (cluster_of self.now).state.tree.covers
            change.now }
        ensures { result ≡ true → (request : Asking) → MayTouchEach (cluster_of self.now).state rank request
            (leaves_gone (cluster_of self.now).state.tree.covers change.now.gone) }
    {
        let Some(dir) = change.gone else {
            return false;
        };
        let Some(spot) = &change.takes else {
            return false;
        };
        if change.puts.is_some() {
            return false;
        }
        self.tree.is_sound();
        spot.at.rank == rank && self.tree.inherits(dir)
    }

    // Whether the leaf of the name that loses its inode may be changed, if there is such a name.
    fn may_take(&self, rank: Rank, request: &Request, change: &Change) -> bool
        requires { LieHeld (IsAtHolder (cluster_of self.now).state) change.now }
        ensures { MatchBool result
            (MayTouchEach (cluster_of self.now).state rank request.now (leaf_taken change.now.takes))
            (LacksOneOf (cluster_of self.now).state rank request.now (leaf_taken change.now.takes)) }
    {
        match &change.takes {
            Some(spot) => self.may_touch(rank, request, &spot.at),
            None => true,
        }
    }

    // Whether the leaf of the name that gets an inode may be changed, if there is such a name.
    fn may_put(&self, rank: Rank, request: &Request, change: &Change) -> bool
        requires { LieHeld (IsAtHolder (cluster_of self.now).state) change.now }
        ensures { MatchBool result
            (MayTouchEach (cluster_of self.now).state rank request.now (leaf_put change.now.puts))
            (LacksOneOf (cluster_of self.now).state rank request.now (leaf_put change.now.puts)) }
    {
        match &change.puts {
            Some(put) => self.may_touch(rank, request, &put.0.at),
            None => true,
        }
    }

    // Whether a leaf of the removed directory may not be changed, if one is removed.
    #[inline(never)]
    fn lacks_gone(&self, rank: Rank, request: &Request, gone: Option<Ino>) -> bool
        requires there { IfSome gone (λ dir. is_directory (shown (cluster_of self.now).state) dir.0 ≡ true) }
        ensures { MatchBool result
            (LacksOneOf (cluster_of self.now).state rank request.now
            (leaves_gone (cluster_of self.now).state.tree.covers gone))
            (MayTouchEach (cluster_of self.now).state rank request.now
            (leaves_gone (cluster_of self.now).state.tree.covers gone)) }
    {
        match gone {
            Some(dir) => self.lacks_leaf(rank, request, dir),
            None => false,
        }
    }

    // Whether a leaf of a directory may not be changed. Each leaf is located once, by the hash at which the previous
    // one ends.
    fn lacks_leaf(&self, rank: Rank, request: &Request, dir: Ino) -> bool
        requires there { is_directory (shown (cluster_of self.now).state) dir.0 ≡ true }
        ensures { MatchBool result
            (LacksOneOf (cluster_of self.now).state rank request.now
            (leaves (cluster_of self.now).state.tree.covers dir.0))
            (MayTouchEach (cluster_of self.now).state rank request.now
            (leaves (cluster_of self.now).state.tree.covers dir.0)) }
    {
        self.tree.is_sound();
        let mut hash = 0;
        while hash < 1 << 24 {
            let Some(located) = self.tree.locate(rank, dir, hash) else {
                unreachable!()
            };
            if !self.may_touch(rank, request, &located.at) {
                return true;
            }
            hash = end_of(located.at.frag);
        }
        false
    }

    // Whether a rank may change a leaf for a request. `at` is the leaf with its holder. If the leaf isn't frozen, its
    // holder is its authority. That must be this rank, or the leaf must be granted to the request.
    fn may_touch(&self, rank: Rank, request: &Request, at: &Dirfrag) -> bool
        requires { IsAtHolder (cluster_of self.now).state at.now }
        ensures { IsTrue result ↔ MayTouch (cluster_of self.now).state rank request.now (leaf_of at.now) }
    {
        if self.tree.is_frozen(at.dir, at.frag) {
            return false;
        }
        at.rank == rank
            || self.waiting.pins.is_granted(&Pin {
                dir: at.dir,
                frag: at.frag,
                client: request.client,
                tid: request.tid,
            })
    }
}
