//! The text that a run prints.
ghost use Rattle.std.specs.Prelude.{◌≡◌, ◌++◌, IfOk, IfSome, OnOk};
ghost use Rattle.cluster_core.specs.State.{places_of};
ghost use Rattle.admin_cli.specs.Left.{BookGrows};
ghost use Rattle.admin_cli.specs.Reports.{Reports, head_text, path_lines};

use crate::workload::listing::all_paths;
use cluster_core::Book;
use keeping::Keep;
use mds_types::Bytes;
use std::alloc::{AllocError, Global};

/// The text of a run: how many requests were applied, whether the receipts agree, and the paths of the tree. None if
/// memory is refused or the tree can't be read.
#[tactic(auto, using(crate::proofs::GoesOnLaws::goes_on_here, crate::proofs::GoesOnLaws::goes_on_past))]
pub(crate) fn report<S: Keep + Drop>(
    alloc: Global,
    book: &mut Book<S>,
    agrees: bool,
) -> Option<Vec<u8>>
    ensures reports { IfSome result (λ text. Reports (places_of book.old) agrees text.items) }
    ensures goes_on { BookGrows book.old book.new }
{
    let served = book.places();
    let paths = all_paths(alloc, book)?;
    let mut text = head(alloc, served, agrees).ok()?;
    add_lines(&mut text, &paths).ok()?;
    Some(text)
}

// The lines before the paths.
fn head(alloc: Global, served: usize, agrees: bool) -> Result<Vec<u8>, AllocError>
    ensures { IfOk result (λ text. text.items ≡ head_text served agrees) }
{
    let text = if agrees {
        format!(in alloc; "served {served}\naudit ok\n")?
    } else {
        format!(in alloc; "served {served}\naudit failed\n")?
    };
    Ok(text.into_bytes())
}

// A line for each path.
#[tactic(auto, using(crate::proofs::PathLines::lines_more))]
fn add_lines(text: &mut Vec<u8>, paths: &Vec<Bytes>) -> Result<(), AllocError>
    ensures { OnOk result (text.new.items ≡ text.old.items ++ path_lines paths.now.items) }
{
    for path in paths {
        text.extend_from_slice(path.as_slice())?;
        text.push(b'\n')?;
    }
    Ok(())
}
