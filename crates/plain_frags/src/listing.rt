//! The rows of a listing.
ghost use Rattle.std.specs.Prelude.{◌≡◌, ◌∷◌, [], take, ◌<◌, ◌≤◌, length, nat_lt, IfOk, MatchOption};
ghost use Rattle.plain_frags.specs.Run.{run};

use mds_types::{Dentry, Ino, Inode, Listing, Name, PageSize};
use sorted_map::Iter;
use std::alloc::{AllocError, Global};

/// Of the rows of one directory at the front, the first `max` with their names and inodes copied, and whether more
/// follow.
pub fn first_rows(
    alloc: Global,
    mut rows: Iter<'_, Dentry, Inode>,
    dir: Ino,
    max: PageSize,
) -> Result<(Listing, bool), AllocError>
    ensures listed { IfOk result (λ page. page.0 ≡ take max (run dir.0 rows.entry)) }
    ensures more { IfOk result (λ page. page.1 ≡ nat_lt max (length (run dir.0 rows.entry))) }
{
    let most = usize::from(max.entries());
    let mut list: Vec<(Name, Inode)> = Vec::new(alloc);
    while let Some(row) = next_in(&mut rows, dir) {
        if list.len() == most {
            return Ok((Listing::from_vec(list), true));
        }
        list.push(copy_of(row)?)?;
    }
    Ok((Listing::from_vec(list), false))
}

// The name and the inode of a row.
fn copy_of(row: &(Dentry, Inode)) -> Result<(Name, Inode), AllocError>
    ensures { IfOk result (λ copy. copy ≡ (row.now.0.name, row.now.1)) }
{
    let name = row.0.name.try_clone()?;
    match row.1.try_clone() {
        Ok(inode) => Ok((name, inode)),
        Err(refused) => {
            drop(name);
            Err(refused)
        }
    }
}

/// How many of the rows at the front are of the directory.
pub fn count_rows(mut rows: Iter<'_, Dentry, Inode>, dir: Ino) -> usize
    ensures { result ≡ length (run dir.0 rows.entry) }
{
    // no count is larger, so it fits a word
    let most = rows.len();
    let mut count = 0;
    while let Some(_row) = next_in(&mut rows, dir) {
        count += 1;
    }
    count
}

/// The next row, if it is one of the directory.
pub fn next_in<'a>(rows: &mut Iter<'a, Dentry, Inode>, dir: Ino) -> Option<&'a (Dentry, Inode)>
    ensures run { MatchOption result (run dir.0 rows.old ≡ [])
        (λ row. run dir.0 rows.old ≡ (row.now.0.name, row.now.1) ∷ run dir.0 rows.new) }
    ensures fewer { MatchOption result (length rows.new ≤ length rows.old) (λ row. length rows.new < length rows.old) }
{
    rows.next().filter(|row| row.0.dir == dir)
}
