//! What operations need of a directory's fragments.
ghost use Rattle.std.specs.Prelude.{◌≡◌, ◌≢◌, ◌↔◌, ℕ, Option, None, Some, true, not, IfOk, IfErr, OnErr, OnOk, take, length, nat_lt};
ghost use Rattle.std.specs.Result.{result_err};
ghost use Rattle.std.specs.Option.{option_copied};
ghost use Rattle.mds_types.specs.declared.refusals.Refusal.{Refusal as Reason};
ghost use Rattle.mds_types.specs.declared.refusals.Refusal.TheVariants.{NoInodes, NoMemory};
ghost use Rattle.mds_types.specs.declared.dirfrags.Dirfrag.{Dirfrag as At};
ghost use Rattle.mds_types.specs.declared.operations.Op.{Op as Operation};
ghost use Rattle.std.specs.FinMap as map;
ghost use Rattle.std.specs.List.{Contains};
ghost use Rattle.fragtree.specs.FragTree.{IsTree};
ghost use Rattle.inode_table.specs.Dirs.{Covers, leaves_of};
ghost use Rattle.mds_types.specs.Tree.{Tree, is_directory, is_above, has_entries};
ghost use Rattle.mds_types.specs.Step.{names_after};
ghost use Rattle.inode_table.specs.TreeChanges.{KeepLeaves};
ghost use Rattle.namespace_ops.specs.declared.plans.Change.{Change as Alteration};
ghost use Rattle.mds_types.specs.Leaf.{Leaf};
ghost use Rattle.namespace_ops.specs.Kept.{ReadsOnly, ChangesOnly};
ghost use Rattle.namespace_ops.specs.Changes.{IsChangeOf, IsNumbered, LieHeld, MayChange, ReadsDirectory, changed, fragments_of};
ghost use Rattle.namespace_ops.specs.Places.{LiesAt, Locates};
ghost use Rattle.namespace_ops.specs.Reasons.{IsOfFragments};

use crate::locating::Located;
use crate::plans::Change;
use mds_types::{Dentry, Dirfrag, Frag, Ino, Inode, Listing, Name, Op, PageSize, Rank, Refusal};
use std::alloc::Global;

/// The fragments that operations read and change. Together they show one plain tree, whatever they are kept in.
///
/// A read may have to fetch what it reads, and can then be refused; it keeps all, and so does a refusal. Which leaves a
/// directory has, where they lie, and how many entries it has, is told with no fetch. A read is told for which
/// operation it is asked, and asks of a directory of that. It takes no number, and is never refused for want of one. A
/// change is made in one call, whole or not at all.
pub trait Frags {
    /// The plain tree that the fragments show.
    ghost content: { Self → Tree };

    /// The leaves of each directory.
    ghost covers: { Self → Covers };

    /// A new inode may have this number.
    ghost IsNumber: { ℕ → Type 0 };

    /// A leaf lies at the rank that holds it: that rank is asked for it, and changes it.
    ghost Holds: { Self → At → Type 0 };

    /// A change may touch this leaf now.
    ghost MayTouch: { Self → Leaf → Type 0 };

    /// What reads for an operation and refusals keep beside the tree and the leaves of each directory, by the refusal
    /// that they answer, if any.
    ghost Follows: { Self → Self → Operation → Option Reason → Type 0 };

    /// A leaf shows the names that it showed.
    ghost Unchanged: { Self → Self → Leaf → Type 0 };

    /// A call for this operation that began in the first state and ended in the second may be refused for this reason.
    ghost MayRefuse: { Self → Self → Operation → Reason → Type 0 };

    /// Whether this is the number of a directory of the tree now.
    fn is_dir(&self, dir: Ino) -> bool
        ensures { result ≡ is_directory (content self.now) dir.0 };

    /// Whether the directory `dir` is above the directory `below`.
    fn is_above(&self, dir: Ino, below: Ino) -> bool
        requires { is_directory (content self.now) below.0 ≡ true }
        ensures { result ≡ is_above (content self.now) dir.0 below.0 };

    /// Whether nothing is in a directory. Takes no memory, and fetches nothing.
    fn is_empty(&self, dir: Ino) -> bool
        ensures { result ≡ not (has_entries (content self.now) dir.0) };

    /// Where a hash falls in a directory: the leaf that it picks, with the rank that holds it, and how many entries the
    /// directory has; nowhere exactly where there is no such directory. `rank` is asked first whether it holds the
    /// leaf. Takes no memory, and fetches nothing.
    fn locate(&self, rank: Rank, dir: Ino, hash: u32) -> Option<Located>
        ensures { Locates (content self.now) (covers self.now) (Holds self.now) dir.0 hash result };

    /// The leaves of a directory by value, which cover every hash once.
    fn leaves(&self, alloc: Global, dir: Ino) -> Result<Vec<Frag>, Refusal>
        ensures listed { IfOk result (λ list. list.items ≡ leaves_of (covers self.now) dir.0) }
        ensures cover { IfOk result (λ list. IsTree list.items) }
        ensures err { IfErr result (λ reason. reason ≡ NoMemory) };

    /// The inode at a dentry, copied. `at` is where the dentry lies.
    fn look(&mut self, op: &Op, dentry: &Dentry, at: &Dirfrag) -> Result<Option<Inode>, Refusal>
        requires reads { ReadsDirectory (content self.old) op.now dentry.now.dir.0 }
        requires at { LiesAt (content self.old) (covers self.old) (Holds self.old) dentry.now at.now }
        ensures found { IfOk result (λ found. found ≡ map.get (content self.old) dentry.now) }
        ensures kept { ReadsOnly (content self.old) (content self.new) (covers self.old) (covers self.new)
            (Follows self.old self.new op.now (result_err result)) }
        ensures err { IfErr result (MayRefuse self.old self.new op.now) }
        ensures numbers { IfErr result (λ reason. reason ≢ NoInodes) };

    /// The first `max` names of a directory greater than `after`, in order, with their inodes, and whether more follow.
    fn list_after(
        &mut self,
        alloc: Global,
        op: &Op,
        dir: Ino,
        after: Option<&Name>,
        max: PageSize,
    ) -> Result<(Listing, bool), Refusal>
        requires reads { ReadsDirectory (content self.old) op.now dir.0 }
        ensures listed { IfOk result
            (λ page. page.0 ≡ take max (names_after (content self.old) dir.0 (option_copied after.entry))) }
        ensures more { IfOk result
            (λ page. page.1 ≡ nat_lt max (length (names_after (content self.old) dir.0 (option_copied after.entry)))) }
        ensures kept { ReadsOnly (content self.old) (content self.new) (covers self.old) (covers self.new)
            (Follows self.old self.new op.now (result_err result)) }
        ensures err { IfErr result (MayRefuse self.old self.new op.now) }
        ensures numbers { IfErr result (λ reason. reason ≢ NoInodes) };

    /// Makes a change that may be made, which is one of the operation, of leaves that may be touched. Each directory
    /// that stands then has the leaves that it had; of one that comes no leaves were set. A leaf that is none of those
    /// that change keeps its names. All growth comes first, and a refusal keeps all as a read does.
    fn change(&mut self, op: &Op, change: Change) -> Result<(), Refusal>
        requires may { MayChange (content self.old) (covers self.old) change }
        requires of_op { IsChangeOf op.now change }
        requires held { LieHeld (Holds self.old) change }
        requires numbered { IsNumbered IsNumber change }
        requires touch { (leaf : Leaf) → Contains (fragments_of (covers self.old) change) leaf
            → MayTouch self.old leaf }
        ensures changed { OnOk result (content self.new ≡ changed (content self.old) change) }
        ensures leaves { OnOk result (KeepLeaves (content self.new) (covers self.old) (covers self.new)) }
        ensures frame { OnOk result
            (ChangesOnly (Unchanged self.old self.new) (fragments_of (covers self.old) change)) }
        ensures kept { OnErr result
            (ReadsOnly (content self.old) (content self.new) (covers self.old) (covers self.new)
            (Follows self.old self.new op.now (result_err result))) }
        ensures err { IfErr result (MayRefuse self.old self.new op.now) };

    /// Fragments refuse for these reasons alone.
    ghost refused_for: { (a b : Self) (op : Operation) (reason : Reason)
        → MayRefuse a b op reason → IsOfFragments reason };

    /// A call that did nothing keeps all.
    ghost follows_self: { (a : Self) (op : Operation) → Follows a a op None };

    /// One call after another that wasn't refused keeps what both keep.
    ghost follows_on: { (a b c : Self) (op : Operation) (told : Option Reason) → Follows a b op None
        → Follows b c op told → Follows a c op told };

    /// Reads and refusals leave each leaf to the rank that holds it.
    ghost held_on: { (a b : Self) (op : Operation) (told : Option Reason) (at : At)
        → Follows a b op told → Holds a at ↔ Holds b at };

    /// What a change may touch it may touch after a read.
    ghost touch_on: { (a b : Self) (op : Operation) (told : Option Reason) (leaf : Leaf)
        → Follows a b op told → MayTouch a leaf → MayTouch b leaf };

    /// Want of memory, and of a number for a new inode, that an operation finds itself is no refusal of the fragments.
    ghost follows_memory: { (a b : Self) (op : Operation) → Follows a b op None → Follows a b op (Some NoMemory) };

    ghost follows_number: { (a b : Self) (op : Operation) → Follows a b op None → Follows a b op (Some NoInodes) };

    /// What reads and refusals keep are the names of every leaf among others.
    ghost unchanged_by: { (a b : Self) (op : Operation) (leaf : Leaf) (told : Option Reason)
        → Follows a b op told → Unchanged a b leaf };

    /// What no call touched is unchanged.
    ghost unchanged_self: { (a : Self) (leaf : Leaf) → Unchanged a a leaf };

    /// A leaf that one call left unchanged, and then another, is unchanged by both.
    ghost unchanged_on: { (a b c : Self) (leaf : Leaf) → Unchanged a b leaf → Unchanged b c leaf → Unchanged a c leaf };

    /// A reason of a call is one of all calls that it ends.
    ghost refused_on: { (a b c : Self) (op : Operation) (reason : Reason) → Follows a b op None
        → MayRefuse b c op reason → MayRefuse a c op reason };
}
