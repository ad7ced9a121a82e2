//! The value of the limit.
ghost use Rattle.std.specs.Prelude.{◌≡◌};
ghost use Rattle.saga_script.specs.Limits.{max_script};

use crate::limits::MAX_SCRIPT;

/// The constant equals the number in the definitions. The function has an empty body: its contract is the law.
pub fn limit_laws()
    ensures { MAX_SCRIPT ≡ max_script }
{}
