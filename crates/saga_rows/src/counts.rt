//! Counts and marks of steps. When a step changes, those of its neighbors are updated.
ghost use Rattle.std.specs.Prelude.{ℕ, Bool, ◌≡◌, ◌<◌, ◌≤◌, ◌+◌, All, false, true, length, slice_index};
ghost use Rattle.saga_rows.specs.Row.{one_if, mark_at, is_finished};
ghost use Rattle.saga_rows.specs.Tables.{AreRefreshed, AreShifted, is_ready, occurs, ready_at};

use crate::bit_sets::BitSet;
use saga_case::StepState;
use saga_history::{is_off, is_standing};

/// Whether a step is as the goal requires: in effect if it is wanted, and otherwise without effect.
pub fn is_finished(wanted: bool, state: StepState) -> bool
    ensures { result ≡ is_finished wanted state }
{
    if wanted {
        is_standing(state)
    } else {
        is_off(state)
    }
}

/// Decreases the count of each of the steps by one.
fn lower(counts: &mut [u16], steps: &[u16])
    requires known { All (λ (s : ℕ). s < length counts.old) steps.now }
    requires enough { (s : ℕ) → s < length counts.old
        → occurs s steps.now ≤ slice_index counts.old s }
    ensures { AreShifted steps.now true false counts.old counts.new }
{
    for s in steps {
        counts[*s as usize] -= 1;
    }
}

/// Increases the count of each of the steps by one.
fn raise(counts: &mut [u16], steps: &[u16])
    requires known { All (λ (s : ℕ). s < length counts.old) steps.now }
    requires room { (s : ℕ) → s < length counts.old
        → slice_index counts.old s + occurs s steps.now ≤ 65535 }
    ensures { AreShifted steps.now false true counts.old counts.new }
{
    for s in steps {
        counts[*s as usize] += 1;
    }
}

/// Updates the counts of the steps after a neighbor changed: `was` and `now` say whether it was counted before and is
/// counted now.
pub fn shift(counts: &mut [u16], steps: &[u16], was: bool, now: bool)
    requires known { All (λ (s : ℕ). s < length counts.old) steps.now }
    requires enough { was ≡ true → (s : ℕ) → s < length counts.old
        → occurs s steps.now ≤ slice_index counts.old s }
    requires room { (s : ℕ) → s < length counts.old
        → slice_index counts.old s + occurs s steps.now ≤ 65535 }
    ensures { AreShifted steps.now was now counts.old counts.new }
{
    if was && !now {
        lower(counts, steps);
    } else if now && !was {
        raise(counts, steps);
    }
}

/// A count after one item changed: `was` and `now` say whether it was counted before and is counted now.
pub fn moved(count: usize, was: bool, now: bool) -> usize
    requires enough { was ≡ true → 1 ≤ count }
    requires room { count ≤ 65535 }
    ensures { result + one_if was ≡ count + one_if now }
{
    if was && !now {
        count - 1
    } else if now && !was {
        count + 1
    } else {
        count
    }
}

/// Whether a step may start while its saga is going.
fn is_ready(state: StepState, wanted: bool, unmet: u16, held: u16) -> bool
    ensures { result ≡ is_ready state wanted unmet held }
{
    match state {
        StepState::Waiting => wanted && unmet == 0,
        StepState::Committed | StepState::Void => !wanted && held == 0,
        _ => false,
    }
}

/// Recomputes the marks of these steps.
pub fn refresh(
    states: &[StepState],
    goal: &[bool],
    unmet: &[u16],
    held: &[u16],
    ready: &mut BitSet,
    steps: &[u16],
)
    requires known { All (λ (s : ℕ). s < length ready.old) steps.now }
    requires states { length states.now ≡ length ready.old }
    requires goal { length goal.now ≡ length ready.old }
    requires unmet { length unmet.now ≡ length ready.old }
    requires held { length held.now ≡ length ready.old }
    ensures { AreRefreshed
        (ready_at states.now goal.now unmet.now held.now) steps.now ready.old ready.new }
{
    for step in steps {
        let s = *step as usize;
        let mark = is_ready(states[s], goal[s], unmet[s], held[s]);
        ready.set(s, mark);
    }
}

/// Recomputes the marks of all steps.
pub fn refresh_all(
    states: &[StepState],
    goal: &[bool],
    unmet: &[u16],
    held: &[u16],
    ready: &mut BitSet,
)
    requires states { length states.now ≡ length ready.old }
    requires goal { length goal.now ≡ length ready.old }
    requires unmet { length unmet.now ≡ length ready.old }
    requires held { length held.now ≡ length ready.old }
    ensures sized { length ready.new ≡ length ready.old }
    ensures marks { (s : ℕ) → s < length ready.old
        → mark_at ready.new s ≡ ready_at states.now goal.now unmet.now held.now s }
{
    for s in 0..states.len() {
        let mark = is_ready(states[s], goal[s], unmet[s], held[s]);
        ready.set(s, mark);
    }
}
