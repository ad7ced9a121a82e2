//! Histories of sagas: the events, which event may follow which, and the properties of each legal history. In a legal
//! history, every event was allowed after the events before it.
//!
//! [`headline`] is the main theorem: each ended saga has exactly its goal, compensations run in reverse order, and each
//! adopted plan is a minimum-cost plan, or its chain shows that no set is allowed. [`first_not_allowed`] checks a
//! history with the rules alone.
#![tactic(auto)]

mod adopted;
mod events;
mod follower;
mod laws;
mod questions;
mod states;
mod tasks;
mod transitions;
mod turns;

pub use adopted::Adopted;
pub use events::{Event, Mark};
pub use follower::{first_not_allowed, phase_of};
pub use laws::{
    are_sound, change_laws, headline, headline_parts, history_laws, merge_laws, saga_laws,
};
pub use questions::{
    goal_contains, is_aborted, is_in_goal, next_aborted, next_opened, next_turn, opened_with,
    state_of, times, turn_of,
};
pub use states::{is_busy, is_off, is_standing, unvoided};
pub use tasks::{Kind, Outcome, Phase, Task};
pub use transitions::Transition;
pub use turns::Turn;
