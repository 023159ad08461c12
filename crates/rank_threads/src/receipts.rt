//! Receipts of the replies that were handed out.
ghost use Rattle.std.specs.Prelude.{◌≡◌, ◌++◌, IfOk, OnOk};
ghost use Rattle.cluster_core.specs.OneThread.{receipt_of, receipts_of};
ghost use Rattle.rank_threads.specs.Turns.{lists_of, receipts_of_all};

use crate::ranks::Answered;
use cluster_core::{Answer, Receipt};
use std::alloc::{AllocError, Global};

/// The receipts of the replies among all plans' results, in their order.
#[tactic(auto, using(crate::proofs::TurnLaws::told_all))]
pub(crate) fn receipts_of_all(
    alloc: Global,
    answers: &Vec<Vec<Answered>>,
) -> Result<Vec<Receipt>, AllocError>
    ensures { IfOk result (λ receipts. receipts.items ≡ receipts_of_all (lists_of answers.now.items)) }
{
    let mut receipts = Vec::new(alloc);
    for results in answers {
        add_receipts(&mut receipts, results)?;
    }
    Ok(receipts)
}

// Adds the receipts of the replies among results.
#[tactic(auto, using(crate::proofs::TurnLaws::told_more))]
fn add_receipts(receipts: &mut Vec<Receipt>, results: &Vec<Answered>) -> Result<(), AllocError>
    ensures { OnOk result (receipts.new.items ≡ receipts.old.items ++ receipts_of results.now.items) }
{
    for result in results {
        add_receipt(receipts, result)?;
    }
    Ok(())
}

// Adds the receipt of a result, if it is a reply.
fn add_receipt(receipts: &mut Vec<Receipt>, told: &Answered) -> Result<(), AllocError>
    ensures { OnOk result (receipts.new.items ≡ receipts.old.items ++ receipt_of told.now) }
{
    match told {
        Ok(
            Answer::Reply {
                client,
                tid,
                place,
                first,
                reply,
            },
        ) => {
            let reply = reply.try_clone()?;
            receipts.push(Receipt {
                client: *client,
                tid: *tid,
                place: *place,
                first: *first,
                reply,
            })?;
            Ok(())
        }
        _ => Ok(()),
    }
}
