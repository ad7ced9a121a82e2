//! The case in a text.
ghost use Rattle.std.specs.Prelude.{◌≡◌, IfOk, IfErr};
ghost use Rattle.saga_case.specs.Situation.{situation, HasStates};
ghost use Rattle.saga_cert.specs.Reads.{IsCaseFault};

use crate::states::Written;
use saga_case::{Case, CaseFault};
use saga_def::Definition;
use saga_json::JsonFault;

/// The case of these contents. Takes no memory.
pub fn case_of<'d>(definition: &'d Definition, written: Written) -> Result<Case<'d>, JsonFault>
    ensures made { IfOk result
        (λ c. (c ≡ situation definition.entry.now written.states.items written.aborted)
        × HasStates definition.entry.now written.states.items) }
    ensures fault { IfErr result (IsCaseFault definition.entry.now written.states.items) }
{
    let Written { states, aborted } = written;
    let made = if aborted {
        Case::aborted(definition, states)
    } else {
        Case::new(definition, states)
    };
    match made {
        Ok(case) => Ok(case),
        Err(CaseFault::WrongLength(_)) => Err(JsonFault::WrongLength),
        Err(CaseFault::Busy(step, _)) => Err(JsonFault::Busy(step)),
    }
}
