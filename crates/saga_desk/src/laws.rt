//! A law of merges. The function has an empty body: its contract is the law.
ghost use Rattle.std.specs.Prelude.{List};
ghost use Rattle.saga_history.specs.declared.events.Event.{Event};
ghost use Rattle.saga_desk.specs.Laws.{HaveSameMerges};

/// Both definitions of a merge are equivalent. The comparison of receipts with histories repeatedly takes the first
/// element of any list. The definition for which saga_history proves legality inserts one history after the other.
#[tactic(auto, using(crate::proofs::BridgeLemmas::have_same_merges))]
pub fn merge_law()
    ensures { (histories : List (List Event)) → HaveSameMerges histories }
{}
