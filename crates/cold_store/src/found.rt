//! What a walk found so far.
ghost use Rattle.std.specs.Prelude.{◌≡◌, ◌<◌, not, true, IfOk, IfErr, OnOk, Some};
ghost use Rattle.std.specs.FinMap as map;
ghost use Rattle.std.specs.Ordering.{nat_cmp};
ghost use Rattle.sorted_map.specs.SortedMap.{contents};
ghost use Rattle.mds_types.specs.Tree.{dentry_cmp, is_dir_kind};
ghost use Rattle.mds_types.specs.declared.refusals.Refusal.TheVariants.{NoMemory};
ghost use Rattle.inode_table.specs.Dirs.{is_known};
ghost use Rattle.inode_table.specs.TreeTable.{IsCounted};
ghost use Rattle.cold_store.specs.Rows.{IsMetDir, is_met, queued, root_alone, walked_with};

use inode_table::{BoxedTree, Dirs, adopt_dir};
use mds_types::{Dentry, Ino, Inode, Name, Refusal};
use sorted_map::SortedMap;
use std::alloc::{AllocError, Global};
use std::marker::Model;

/// Directories in the order in which they were found, the inode numbers met, all entries, and where each directory
/// stands with its leaves. The entries of the directories are counted once all are found, so until then none counts.
#[derive(Drop)]
pub struct Found {
    queue: Vec<Ino>,
    met: SortedMap<u64, ()>,
    entries: SortedMap<Dentry, Inode>,
    dirs: Dirs,
}

impl Model for Found {
    ghost use Rattle.std.specs.Coded.{codes};
    ghost use Rattle.std.specs.FinMap as map;
    ghost use Rattle.std.specs.Ordering.{nat_cmp};
    ghost use Rattle.sorted_map.specs.SortedMap.{contents};
    ghost use Rattle.mds_types.specs.Tree.{dentry_cmp};
    ghost use Rattle.inode_table.specs.TreeTable.{IsCounted};
    ghost use Rattle.cold_store.specs.Rows.{Finding};

    ghost Value = { Finding };

    ghost coded = { Prim.hlevel (codes, map.code) };

    ghost view = { λ f. record {
      shape = record {
        queue = f.queue.items;
        met = contents nat_cmp f.met;
        tree = contents dentry_cmp f.entries;
        homes = f.dirs.homes;
      };
      covers = f.dirs.trees;
    } };

    ghost invariant = { λ f. IsCounted map.empty f.dirs.counts f.dirs.pins };
}

impl Found {
    /// The root alone, whose number counts as met.
    pub fn new(alloc: Global) -> Result<Found, AllocError>
        ensures { IfOk result (λ found. found ≡ record { shape = root_alone; covers = map.empty }) }
    {
        let mut queue = Vec::new(alloc);
        queue.push(Ino::ROOT)?;
        let mut met = SortedMap::new(alloc);
        met.reserve(1)?;
        let _ = met.insert(Ino::ROOT.0, ());
        Ok(Found {
            queue,
            met,
            entries: SortedMap::new(alloc),
            dirs: Dirs::new(alloc),
        })
    }

    /// The directories.
    pub fn queue(&self) -> &[Ino]
        ensures { result.now ≡ self.now.shape.queue }
    {
        &self.queue
    }

    /// Where the directories stand, and their leaves.
    pub fn dirs(&self) -> &Dirs
        ensures homes { result.now.homes ≡ self.now.shape.homes }
        ensures trees { result.now.trees ≡ self.now.covers }
    {
        &self.dirs
    }

    /// The entries and the directories, given away.
    pub fn into_parts(self) -> (SortedMap<Dentry, Inode>, Dirs)
        ensures entries { contents dentry_cmp result.0 ≡ self.shape.tree }
        ensures homes { result.1.homes ≡ self.shape.homes }
        ensures trees { result.1.trees ≡ self.covers }
        ensures none { IsCounted map.empty result.1.counts result.1.pins }
    {
        let Found {
            queue,
            met,
            entries,
            dirs,
        } = self;
        drop(queue);
        drop(met);
        (entries, dirs)
    }

    /// Gives a directory that was found these leaves.
    pub fn set_tree(&mut self, dir: Ino, tree: BoxedTree)
        requires { is_known self.old.shape.homes dir.0 ≡ true }
        ensures shape { self.new.shape ≡ self.old.shape }
        ensures covers { self.new.covers ≡ map.insert self.old.covers dir.0 tree }
    {
        self.dirs.set_tree(dir, tree);
    }

    /// Adds the entry of a name in a directory, unless the inode's number was met; tells whether it wasn't.
    pub fn add(&mut self, dir: Ino, name: Name, inode: Inode) -> Result<bool, Refusal>
        requires { IsMetDir self.old.shape dir.0 }
        ensures new { IfOk result (λ new. new ≡ not (is_met self.old.shape inode.ino.0)) }
        ensures added { IfOk result
            (λ new. new ≡ true → self.new.shape ≡ walked_with self.old.shape (record { dir = dir; name = name }) inode) }
        ensures covers { self.new.covers ≡ self.old.covers }
        ensures refused { IfErr result (λ reason. reason ≡ NoMemory) }
    {
        self.met.reserve(1)?;
        if self.met.insert(inode.ino.0, ()).is_some() {
            return Ok(false);
        }
        self.entries.reserve(1)?;
        put_in_queue(&mut self.queue, &inode)?;
        let mut spare = ready_home(&mut self.dirs, &name, &inode)?;
        let dentry = Dentry { dir, name };
        adopt_dir(&mut self.dirs, &mut spare, &dentry, &inode);
        drop(spare);
        let _ = self.entries.insert(dentry, inode);
        Ok(true)
    }
}

// Puts an inode that is a directory at the end of the queue.
fn put_in_queue(queue: &mut Vec<Ino>, inode: &Inode) -> Result<(), AllocError>
    ensures { OnOk result (queue.new.items ≡ queued queue.old.items inode.now) }
{
    if inode.kind.is_dir() {
        queue.push(inode.ino)?;
    }
    Ok(())
}

// Makes room for one more directory, and a copy of its name, if the inode is one.
fn ready_home(dirs: &mut Dirs, name: &Name, inode: &Inode) -> Result<Option<Name>, Refusal>
    ensures ready { IfOk result (λ spare. is_dir_kind inode.now.kind ≡ true
        → (0 < dirs.new.room) × (spare ≡ Some name.now)) }
    ensures homes { dirs.new.homes ≡ dirs.old.homes }
    ensures trees { dirs.new.trees ≡ dirs.old.trees }
    ensures counts { dirs.new.counts ≡ dirs.old.counts }
    ensures pins { dirs.new.pins ≡ dirs.old.pins }
    ensures refused { IfErr result (λ reason. reason ≡ NoMemory) }
{
    if !inode.kind.is_dir() {
        return Ok(None);
    }
    dirs.reserve()?;
    Ok(Some(name.try_clone()?))
}
