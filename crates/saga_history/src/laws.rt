//! Laws of each legal history. The functions only read their arguments: their contracts are the laws.
ghost use Rattle.std.specs.Prelude.{All, List};
ghost use Rattle.saga_def.specs.Sound.{IsSound};
ghost use Rattle.saga_history.specs.Changes.{past};
ghost use Rattle.saga_history.specs.Rules.{IsLegal};
ghost use Rattle.saga_history.specs.Headline.{Headline};
ghost use Rattle.saga_history.specs.Tallies.{AllAreTallied};
ghost use Rattle.saga_history.specs.Counts.{AllHaveFewEvents};
ghost use Rattle.saga_history.specs.Bounds.{BoundsAreReached};
ghost use Rattle.saga_history.specs.Progress.{AllEndedOrWait};
ghost use Rattle.saga_history.specs.Plans.{PlansLeaveAWay};
ghost use Rattle.saga_history.specs.Parts as parts;
ghost use Rattle.saga_def.specs.Contents.{Contents};
ghost use Rattle.saga_history.specs.Changes.{Change};
ghost use Rattle.saga_history.specs.Deciders as deciders;
ghost use Rattle.saga_history.specs.Laws.{AdoptionsSettle, GoalIsClosed, GoalIsKept, HasOnePhase, OthersAreUndone, UndoneInOrder};

use crate::events::Event;
use saga_def::Definition;

/// Each definition on a shelf is sound. Takes time linear in the shelf.
pub fn are_sound(shelf: &[Definition])
    ensures { All IsSound shelf.now }
{
    for definition in shelf {
        let _ = definition.steps();
    }
}

/// The main theorem, for each legal history. In each ended saga, exactly the steps of its goal, which is a
/// dependency-closed set, are committed and not compensated. Every other committed step was compensated once, after all
/// steps that depended on it. For every adopted plan, no allowed set costs less, and allowed sets have no failed or
/// undone step. An adopted chain shows that no set is allowed.
pub fn headline(shelf: &[Definition], history: &[Event])
    ensures { IsLegal shelf.now (past history.now) → Headline shelf.now (past history.now) }
{
    are_sound(shelf);
}

/// Further laws for each saga of a legal history: what the states say about its events; the maximum number of its
/// events, with an example that reaches each bound; its state if no task can start; and that a compensation that fails
/// permanently does not by itself make the saga stuck.
#[tactic(auto, using(crate::proofs::TallyLemmas::all_are_tallied, crate::proofs::CountLemmas::all_have_few_events, crate::proofs::ProgressLemmas::all_ended_or_wait, crate::proofs::PlanLemmas::plans_leave_a_way))]
pub fn saga_laws(shelf: &[Definition], history: &[Event])
    ensures tallied { IsLegal shelf.now (past history.now)
        → AllAreTallied shelf.now (past history.now) }
    ensures few { IsLegal shelf.now (past history.now)
        → AllHaveFewEvents shelf.now (past history.now) }
    ensures waits { IsLegal shelf.now (past history.now)
        → AllEndedOrWait shelf.now (past history.now) }
    ensures goes_on { IsLegal shelf.now (past history.now)
        → PlansLeaveAWay shelf.now (past history.now) }
    ensures reached { BoundsAreReached }
{
    are_sound(shelf);
}

/// How a history consists of its events. In a legal history, the event at each index was allowed after the events
/// before it, which form a legal history too. With an event that is allowed, it stays legal. An event adds one change
/// to its saga and leaves every other saga unchanged. The history is legal if and only if its part for each saga is
/// legal. At most one index is that of the first event that is not allowed, and a legal history has no such index.
#[tactic(auto, using(crate::proofs::PartLemmas::grows_by_allowed, crate::proofs::PartLemmas::leaves_other_sagas, crate::proofs::MergeLemmas::adds_one_change))]
pub fn history_laws(shelf: &[Definition], history: &[Event])
    ensures places { IsLegal shelf.now (past history.now)
        → parts.EachWasAllowed shelf.now history.now }
    ensures adds { parts.AddsOneChange history.now }
    ensures grows { parts.GrowsByAllowed shelf.now history.now }
    ensures others { parts.LeavesOtherSagas shelf.now history.now }
    ensures sagas { parts.IsLegalBySagas shelf.now history.now }
    ensures first { parts.HasOneFirst shelf.now history.now }
    ensures none { parts.HasNoFirst shelf.now history.now }
{}

/// Which change is decisive, for all later changes: the turn is decided by the last change that decides a turn; the
/// goal by the last adopted plan; the definition by the last opening. The sagas that a history opens are those of its
/// openings, in order.
pub fn change_laws(history: &[Event])
    ensures turn { deciders.LastDecidesTurn }
    ensures goal { deciders.LastDecidesGoal }
    ensures opened { deciders.LastOpens }
    ensures openings { deciders.OpensByOpenings history.now }
{}

/// Relations between histories. Which events are allowed in a saga depends only on its own changes. A merge of legal
/// histories that have no saga in common is legal, for two and for any number of histories. Two histories that number
/// their sagas with the same stride from different first numbers have no saga in common.
#[tactic(auto, using(crate::proofs::MergeLemmas::merges_are_legal, crate::proofs::MergeLemmas::merges_of_many_are_legal, crate::proofs::MergeLemmas::depends_on_own_changes))]
pub fn merge_laws(shelf: &[Definition], first: &[Event], second: &[Event])
    ensures own { parts.DependsOnOwnChanges shelf.now first.now second.now }
    ensures merges { parts.MergesAreLegal shelf.now first.now second.now }
    ensures many { parts.MergesOfManyAreLegal shelf.now }
    ensures numbered { parts.NumberedApart shelf.now first.now second.now }
{}

/// The parts of the main theorem, for every history for which it holds; and that a saga has at most one phase.
#[tactic(auto, using(crate::proofs::LawLemmas::has_one_phase, crate::proofs::LawLemmas::goal_is_closed, crate::proofs::LawLemmas::goal_is_kept, crate::proofs::LawLemmas::others_are_undone, crate::proofs::LawLemmas::undone_in_order))]
pub fn headline_parts(shelf: &[Definition], history: &[Event])
    ensures closed { Headline shelf.now (past history.now)
        → GoalIsClosed shelf.now (past history.now) }
    ensures kept { Headline shelf.now (past history.now) → GoalIsKept shelf.now (past history.now) }
    ensures undone { Headline shelf.now (past history.now)
        → OthersAreUndone shelf.now (past history.now) }
    ensures in_order { Headline shelf.now (past history.now)
        → UndoneInOrder shelf.now (past history.now) }
    ensures settled { Headline shelf.now (past history.now)
        → AdoptionsSettle shelf.now history.now }
    ensures phase { (d : Contents) (l : List Change) → HasOnePhase d l }
{}
