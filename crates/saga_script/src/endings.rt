//! How an action ends, as a line of a script states it.
ghost use Rattle.std.specs.Prelude.{ℕ, ◌≡◌, ◌<◌, IfSome, slice_index_or, if◌then◌else◌};
ghost use Rattle.saga_script.specs.Endings.{outcome_of, asks_abort, is_attempt, place_of};

use saga_history::Outcome;

/// How an action or a compensation ends.
#[derive(Clone, Copy, Debug, PartialEq, Eq)]
pub enum Ending {
    Done,
    /// It ends without an effect.
    Void,
    Failed,
    /// It succeeds, and the saga is aborted after it.
    DoneThenAbort,
}

/// The maximum number of tries of an action, and one more index for all later attempts.
pub const PLACES: usize = 10;

impl Ending {
    /// The outcome of this ending.
    pub fn outcome(self) -> Outcome
        ensures { result ≡ outcome_of self }
    {
        match self {
            Ending::Done | Ending::DoneThenAbort => Outcome::Done,
            Ending::Void => Outcome::Void,
            Ending::Failed => Outcome::Failed,
        }
    }

    /// Whether the saga is aborted after it.
    pub fn asks_abort(self) -> bool
        ensures { result ≡ asks_abort self }
    {
        matches!(self, Ending::DoneThenAbort)
    }
}

/// The endings of all attempts, in which the new ending replaces that of the given attempt, or of each attempt if none
/// is given.
pub fn with_ending(row: [Ending; PLACES], attempt: Option<u8>, ending: Ending) -> [Ending; PLACES]
    requires { IfSome attempt (λ k. k < 10) }
    ensures { (k : ℕ) (d : Ending) → k < 10 → slice_index_or result k d
        ≡ (if is_attempt attempt k then ending else slice_index_or row k d) }
{
    match attempt {
        None => [ending; PLACES],
        Some(k) => {
            let mut new = row;
            new[k as usize] = ending;
            new
        }
    }
}

/// The index of an attempt in a row. Attempts after the last one that a line can name have index 0.
pub fn place_of(attempt: u64) -> usize
    ensures place { result ≡ place_of attempt }
    ensures within { result < 10 }
{
    if attempt < PLACES as u64 {
        attempt as usize
    } else {
        0
    }
}
