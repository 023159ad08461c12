//! Laws of proposals, each as the contract of a function that does nothing.
ghost use Rattle.cluster_core.specs.Proposal.{NoCandidateNoProposal, ProposedMergesPass, ProposedSplitsPass, ThereIsOne};

/// A rank proposes at most one step.
pub fn there_is_one_proposal()
    ensures { ThereIsOne }
{}

/// A proposed split passes the listed checks of Split.
pub fn proposed_splits_pass()
    ensures { ProposedSplitsPass }
{}

/// A proposed merge passes the listed checks of Merge.
pub fn proposed_merges_pass()
    ensures { ProposedMergesPass }
{}

/// If a rank has no candidate of a kind, it proposes nothing of that kind.
pub fn no_candidate_no_proposal()
    ensures { NoCandidateNoProposal }
{}
