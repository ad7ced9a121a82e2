//! Laws of the reading of texts, and the value of its limit.
ghost use Rattle.std.specs.Prelude.{◌≡◌, ℕ, List};
ghost use Rattle.saga_text.specs.Laws.{HasOneAnswer};
ghost use Rattle.saga_text.specs.Limits.{max_definition};

use crate::limits::MAX_DEFINITION;
use saga_def::fault_laws;

/// Has an empty body: its contract is the law. Except for lack of memory, [`read_definition`](crate::read_definition)
/// has one result for each text. So for a text that is too long or not TOML, this fault is the only result.
pub fn reading_laws()
    ensures one { (text : List ℕ) → HasOneAnswer text }
    ensures limit { MAX_DEFINITION ≡ max_definition }
{
    fault_laws();
}
