//! Fragments kept in the plainest way: one ordered map of all entries.
ghost use Rattle.std.specs.Prelude.{◌≡◌, ◌<◌, [], take, length, nat_lt, not, true, false, is_some, Some, IfErr, IfOk, OnOk, ◌↔◌};
ghost use Rattle.std.specs.List.{list_any};
ghost use Rattle.std.specs.Option.{option_copied};
ghost use Rattle.std.specs.FinMap as map;
ghost use Rattle.sorted_map.specs.SortedMap.{contents};
ghost use Rattle.mds_types.specs.Tree.{dentry_cmp, entries_in, has_entries, IsUnused};
ghost use Rattle.mds_types.specs.Step.{names_after};
ghost use Rattle.plain_frags.specs.Run.{run};
ghost use Rattle.mds_types.specs.declared.refusals.Refusal.TheVariants.{NoMemory};
ghost use Rattle.inode_table.specs.TreeChanges.{KeepLeaves};
ghost use Rattle.namespace_ops.specs.Changes.{MayChange, changed, fragments_of};
ghost use Rattle.namespace_ops.specs.Kept.{ChangesOnly};
ghost use Rattle.plain_frags.specs.PlainFrags.{IsPreparedFor, Kept, LeafStays, is_numbered};

use super::changes::{move_entry, put_entry, remove_entry};
use super::listing::{count_rows, first_rows, next_in};
use inode_table::Dirs;
use mds_types::{Dentry, Dirfrag, Frag, Ino, Inode, Listing, Name, Op, PageSize, Rank, Refusal};
use namespace_ops::{Change, Frags, Located};
use sorted_map::{Iter, Probe, SortedMap};
use std::alloc::{AllocError, Global};
use std::cmp::Ordering;
use std::fmt;
use std::marker::Model;

/// All entries in one ordered map, and beside it the directory table with each directory's leaves.
///
/// Of every value it holds that the tree is well formed and the table is that of the tree.
#[derive(Drop)]
pub struct PlainFrags {
    entries: SortedMap<Dentry, Inode>,
    dirs: Dirs,
    /// The name of the directory that comes or moves next, for its home in the table.
    spare: Option<Name>,
}

impl Model for PlainFrags {
    ghost use Rattle.std.specs.Prelude.{◌≡◌};
    ghost use Rattle.mds_types.specs.Tree.{dentry_cmp};
    ghost use Rattle.sorted_map.specs.SortedMap.{contents};
    ghost use Rattle.std.specs.Coded.{codes};
    ghost use Rattle.std.specs.FinMap as map;
    ghost use Rattle.inode_table.specs.TreeTable.{IsTabled};
    ghost use Rattle.plain_frags.specs.PlainFrags.{Kept};

    ghost Value = { Kept };

    ghost coded = { Prim.hlevel (codes, map.code) };

    ghost view = { λ f. record {
      tree = contents dentry_cmp f.entries;
      homes = f.dirs.homes;
      covers = f.dirs.trees;
      entries_left = f.entries.room;
      dirs_left = f.dirs.room;
      spare = f.spare;
    } };

    ghost invariant = { λ f. IsTabled (contents dentry_cmp f.entries) f.dirs.homes };
}

impl PlainFrags {
    /// Fragments with no entry: the empty tree, of which the root has the one leaf `*`.
    pub fn new(alloc: Global) -> PlainFrags
        ensures tree { result.tree ≡ map.empty }
        ensures leaves { result.covers ≡ map.empty }
    {
        PlainFrags {
            entries: SortedMap::new(alloc),
            dirs: Dirs::new(alloc),
            spare: None,
        }
    }

    /// Whether a number can be offered for a new inode: it is not the root's, and no entry has it. Looks at each entry.
    pub fn is_unused(&self, number: Ino) -> bool
        ensures { (result ≡ true) ↔ IsUnused self.now.tree number.0 }
    {
        number != Ino::ROOT && none_numbered(self.entries.iter(), number)
    }
}

// Whether no row has an inode of this number.
fn none_numbered(mut rows: Iter<'_, Dentry, Inode>, number: Ino) -> bool
    ensures { result ≡ not (list_any (is_numbered number.0) rows.entry) }
{
    while let Some(row) = rows.next() {
        if row.1.ino == number {
            return false;
        }
    }
    true
}

impl fmt::Debug for PlainFrags {
    /// The entries and the table. The name that is set aside is room, and no part of them.
    fn fmt<W: fmt::Write>(&self, f: &mut fmt::Formatter<W>) -> fmt::Result {
        let PlainFrags { entries, dirs, .. } = self;
        write!(f, "PlainFrags({entries:?}, {dirs:?})")
    }
}

/// A name, borrowed, after which the names of a directory are listed.
#[derive(Clone, Copy)]
struct AfterName<'a> {
    dir: Ino,
    name: &'a Name,
}

impl<'a> Probe<Dentry> for AfterName<'a> {
    ghost key = { λ p. record { dir = p.dir; name = p.name.now } };

    fn order(&self, other: &Dentry) -> Ordering {
        self.dir.cmp(&other.dir).then(self.name.cmp(&other.name))
    }
}

/// The dentry before all names of a directory.
#[derive(Clone, Copy)]
struct DirFront {
    dir: Ino,
}

impl Probe<Dentry> for DirFront {
    ghost key = { λ p. record { dir = p.dir; name = [] } };

    fn order(&self, other: &Dentry) -> Ordering {
        let empty: &[u8] = &[];
        self.dir
            .cmp(&other.dir)
            .then(empty.cmp(other.name.as_bytes()))
    }
}

impl Frags for PlainFrags {
    ghost use Rattle.std.specs.Prelude.{◌≡◌, refl};
    ghost use Rattle.std.proofs.Common.{◌∙◌};
    ghost use Rattle.mds_types.specs.declared.refusals.Refusal.TheVariants.{NoMemory};
    ghost use Rattle.namespace_ops.proofs.ReasonLaws.{refused_for_memory};
    ghost use Rattle.plain_frags.specs.PlainFrags.{KeepsShown, LeafStays};
    ghost use Rattle.namespace_ops.proofs.OtherLeaves.{kept_shows, shows_on};

    ghost content = { λ f. f.tree };

    ghost covers = { λ f. f.covers };

    ghost IsNumber = { λ n. Unit {0} };

    ghost Holds = { λ f at. Unit {0} };

    ghost MayTouch = { λ f leaf. Unit {0} };

    ghost Follows = { λ a b op told. KeepsShown a b };

    ghost MayRefuse = { λ a b op reason. reason ≡ NoMemory };

    ghost Unchanged = { λ a b leaf. LeafStays a b leaf };

    ghost unchanged_by = { λ a b op leaf told same stood. kept_shows _ _ _ _ leaf same.0 same.1 stood };

    ghost unchanged_self = { λ a leaf stood. kept_shows _ _ _ _ leaf refl refl stood };

    ghost unchanged_on = { λ a b c leaf p q stood. shows_on _ _ _ _ _ leaf (p stood) (q (p stood).stands) };

    ghost follows_self = { λ a op. (refl, refl) };

    ghost follows_on = { λ a b c op told p q. (q.0 ∙ p.0, q.1 ∙ p.1) };

    ghost held_on = { λ a b op told at p. (λ h. h, λ h. h) };

    ghost touch_on = { λ a b op told leaf p may. may };

    ghost follows_memory = { λ a b op p. p };

    ghost follows_number = { λ a b op p. p };

    ghost refused_on = { λ a b c op reason p because. because };

    ghost refused_for = { λ a b op reason because. refused_for_memory _ a b reason because };

    fn is_dir(&self, dir: Ino) -> bool {
        self.dirs.contains(dir)
    }

    fn is_above(&self, dir: Ino, below: Ino) -> bool {
        self.dirs.is_above(dir, below)
    }

    fn is_empty(&self, dir: Ino) -> bool {
        nothing_in(&self.entries, dir)
    }

    fn locate(&self, _rank: Rank, dir: Ino, hash: u32) -> Option<Located> {
        let Some(leaf) = self.dirs.leaf_at(dir, hash) else {
            return None;
        };
        let at = Dirfrag {
            dir,
            frag: leaf.frag,
            rank: Rank(0),
        };
        let entries = entries_of(&self.entries, dir) as u64;
        Some(Located { at, entries })
    }

    fn leaves(&self, alloc: Global, dir: Ino) -> Result<Vec<Frag>, Refusal> {
        let tree = self.dirs.tree(alloc, dir)?;
        // of a tree that is asked for its length its leaves are known to cover every hash
        let _ = tree.len();
        let leaves = tree.leaves(alloc);
        drop(tree);
        Ok(leaves?)
    }

    fn look(&mut self, _op: &Op, dentry: &Dentry, _at: &Dirfrag) -> Result<Option<Inode>, Refusal> {
        Ok(inode_at(&self.entries, dentry)?)
    }

    fn list_after(
        &mut self,
        alloc: Global,
        _op: &Op,
        dir: Ino,
        after: Option<&Name>,
        max: PageSize,
    ) -> Result<(Listing, bool), Refusal> {
        Ok(first_rows(alloc, rows_after(&self.entries, dir, after), dir, max)?)
    }

    fn change(&mut self, _op: &Op, change: Change) -> Result<(), Refusal> {
        if let Err(refusal) = self.ready(&change) {
            drop(change);
            return Err(refusal);
        }
        self.make(change);
        Ok(())
    }
}

impl PlainFrags {
    // Makes every growth that a change needs.
    fn ready(&mut self, change: &Change) -> Result<(), Refusal>
        ensures ready { OnOk result (IsPreparedFor self.new change.now) }
        ensures tree { self.new.tree ≡ self.old.tree }
        ensures homes { self.new.homes ≡ self.old.homes }
        ensures covers { self.new.covers ≡ self.old.covers }
        ensures refused { IfErr result (λ reason. reason ≡ NoMemory) }
    {
        match (&change.takes, &change.puts) {
            (None, Some((spot, inode))) => {
                if change.comes {
                    self.entries.reserve(1)?;
                    if inode.kind.is_dir() {
                        self.spare = Some(spot.name.try_clone()?);
                        return self.dirs.reserve();
                    }
                }
            }
            (Some(_), Some((to, _))) => {
                self.entries.reserve(1)?;
                self.spare = Some(to.name.try_clone()?);
            }
            (_, None) => {}
        }
        Ok(())
    }

    // Makes a change for which there is room.
    fn make(&mut self, change: Change)
        requires ready { IsPreparedFor self.old change }
        requires may { MayChange self.old.tree self.old.covers change }
        ensures changed { self.new.tree ≡ changed self.old.tree change }
        ensures leaves { KeepLeaves self.new.tree self.old.covers self.new.covers }
        ensures frame { ChangesOnly (LeafStays self.old self.new) (fragments_of self.old.covers change) }
    {
        let PlainFrags {
            entries,
            dirs,
            spare,
        } = self;
        let Change {
            takes,
            puts,
            comes,
            ..
        } = change;
        match (takes, puts) {
            (None, Some((spot, inode))) => {
                put_entry(entries, dirs, spare, spot.into_dentry(), inode, comes);
            }
            (Some(spot), None) => {
                let dentry = spot.into_dentry();
                remove_entry(entries, dirs, &dentry);
                drop(dentry);
            }
            (Some(from), Some((to, inode))) => {
                let from = from.into_dentry();
                move_entry(entries, dirs, spare, &from, to.into_dentry(), inode);
                drop(from);
            }
            (None, None) => {}
        }
    }
}

// The inode at a dentry, copied.
fn inode_at(
    entries: &SortedMap<Dentry, Inode>,
    dentry: &Dentry,
) -> Result<Option<Inode>, AllocError>
    ensures { IfOk result (λ found. found ≡ map.get (contents dentry_cmp entries.now) dentry.now) }
{
    match entries.get(dentry) {
        Some(inode) => Ok(Some(inode.try_clone()?)),
        None => Ok(None),
    }
}

// The rows from the first name of the directory that is greater than `after`.
fn rows_after<'a>(
    entries: &'a SortedMap<Dentry, Inode>,
    dir: Ino,
    after: Option<&Name>,
) -> Iter<'a, Dentry, Inode>
    ensures { run dir.0 result ≡ names_after (contents dentry_cmp entries.entry.now) dir.0 (option_copied after.entry) }
{
    match after {
        Some(name) => entries.iter_after(&AfterName { dir, name }),
        None => entries.iter_from(&DirFront { dir }),
    }
}

// How many entries are in the directory.
fn entries_of(entries: &SortedMap<Dentry, Inode>, dir: Ino) -> usize
    ensures { result ≡ entries_in (contents dentry_cmp entries.now) dir.0 }
{
    count_rows(rows_after(entries, dir, None), dir)
}

// Whether no entry is in the directory.
fn nothing_in(entries: &SortedMap<Dentry, Inode>, dir: Ino) -> bool
    ensures { result ≡ not (has_entries (contents dentry_cmp entries.now) dir.0) }
{
    let mut rows = rows_after(entries, dir, None);
    next_in(&mut rows, dir).is_none()
}
