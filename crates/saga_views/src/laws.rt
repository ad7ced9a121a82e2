//! The values of the limits.
ghost use Rattle.std.specs.Prelude.{◌≡◌};
ghost use Rattle.saga_views.specs.Limits.{enough_tasks, most_sagas};

use crate::lists::MOST_SAGAS;
use crate::ready::ENOUGH_TASKS;

/// The constants have the values that the specifications name. The function does nothing; its contract states the
/// theorem.
pub fn limit_laws()
    ensures sagas { MOST_SAGAS ≡ most_sagas }
    ensures tasks { ENOUGH_TASKS ≡ enough_tasks }
{}
