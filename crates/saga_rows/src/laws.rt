//! The value of the limit.
ghost use Rattle.std.specs.Prelude.{◌≡◌};
ghost use Rattle.saga_rows.specs.Limits.{max_rows};

use crate::rows::MAX_ROWS;

/// The constant equals the number in the definitions. The function has an empty body: its contract is the law.
pub fn limit_laws()
    ensures { MAX_ROWS ≡ max_rows }
{}
