//! Follows the sagas of a history, event by event.
ghost use Rattle.std.specs.Prelude.{◌≡◌, ◌<◌, ◌≤◌, ◌+◌, ◌^◌, List, ◌∷◌, IfOk};
ghost use Rattle.saga_history.specs.Changes.{Change, change_of};
ghost use Rattle.saga_report.specs.Tells.{Tells, Follows};

use crate::sagas::{Saga, is_adoption, next_cost, next_goal, put_state};
use saga_history::{Event, next_aborted, next_opened, next_turn};
use std::alloc::{AllocError, Global};
use std::collections::HashMap;

/// The saga after one more of its events.
fn after(alloc: Global, saga: Saga, event: &Event) -> Result<Saga, AllocError>
    requires { saga.plans + 1 < 2 ^ 64 }
    ensures tells { IfOk result (λ new. (l : List Change) → Tells saga l
        → Tells new (change_of event.now ∷ l)) }
    ensures plans { IfOk result (λ new. new.plans ≤ saga.plans + 1) }
{
    let Saga {
        opened,
        turn,
        aborted,
        goal,
        mut states,
        plans,
        cost,
    } = saga;
    if let Some((step, transition)) = event.transition() {
        put_state(&mut states, step as usize, transition.state_after())?;
    }
    Ok(Saga {
        opened: next_opened(event, opened),
        turn: next_turn(event, turn),
        aborted: next_aborted(event, aborted),
        goal: next_goal(alloc, event, goal)?,
        states,
        plans: if is_adoption(event) { plans + 1 } else { plans },
        cost: next_cost(event, cost),
    })
}

/// The sagas of a history by their numbers, each with its changes applied.
pub fn follow(alloc: Global, events: &[Event]) -> Result<HashMap<u32, Saga>, AllocError>
    ensures { IfOk result (λ sagas. Follows sagas events.now) }
{
    let mut sagas = HashMap::new(alloc);
    for event in events {
        let number = event.saga();
        let saga = match sagas.remove(&number) {
            Some(saga) => saga,
            None => Saga::new(alloc),
        };
        let saga = after(alloc, saga, event)?;
        sagas.insert(number, saga)?;
    }
    Ok(sagas)
}
