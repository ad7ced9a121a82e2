//! The results of an audit: for a group of sagas, and for all.
ghost use Rattle.std.specs.Prelude.{◌≡◌};
ghost use Rattle.saga_audit.specs.Joins.{Fit, joined};

use crate::reasons::Reason;

/// The result of an audit.
#[derive(Clone, Copy, Debug, PartialEq, Eq)]
pub enum AuditAnswer {
    /// The history is legal. The fields count the opened sagas, the sagas that are ended or stuck
    /// after the last event, and the events.
    Yes {
        sagas: usize,
        ended: usize,
        stuck: usize,
        events: usize,
    },
    /// The history is not legal. `position` is the index, from 0, of the first event that the rules
    /// do not allow after the events before it. `reason` says why.
    No {
        position: usize,
        reason: Reason,
    },
}

/// Counts of sagas: all, the ended ones and the stuck ones.
#[derive(Clone, Copy, Debug)]
pub struct Tally {
    pub sagas: usize,
    pub ended: usize,
    pub stuck: usize,
}

/// The result for a group of sagas: their tally, or the first event of the group that is not
/// allowed.
#[derive(Clone, Copy, Debug)]
pub enum Finding {
    Legal(Tally),
    Refused { position: usize, reason: Reason },
}

/// Joins the results of two groups that have no saga in common.
pub fn join(first: Finding, second: Finding) -> Finding
    requires { Fit first second }
    ensures { result ≡ joined first second }
{
    match first {
        Finding::Legal(a) => match second {
            Finding::Legal(b) => Finding::Legal(Tally {
                sagas: a.sagas + b.sagas,
                ended: a.ended + b.ended,
                stuck: a.stuck + b.stuck,
            }),
            Finding::Refused { .. } => second,
        },
        Finding::Refused { position, .. } => match second {
            Finding::Legal(_) => first,
            Finding::Refused {
                position: other,
                ..
            } => { if other < position { second } else { first } }
        },
    }
}
