//! Costs as capacities.
ghost use Rattle.std.specs.Prelude.{◌≡◌, IfOk, map};
ghost use Rattle.saga_case.specs.Terms.{terms_of};
ghost use Rattle.saga_closure.specs.Capacities.{AreCapacities, amount_of, endless};

use saga_case::Case;
use saga_def::Price;
use std::alloc::{AllocError, Global};

/// The unbounded capacity: more than any bounded one.
pub const ENDLESS: u64 = 1 << 63;

/// A cost as a capacity.
fn capacity(price: Price) -> u64
    ensures { result ≡ amount_of price }
{
    match price {
        Price::Of(amount) => amount,
        Price::Never => ENDLESS,
    }
}

/// The costs to drop the steps of a case, then the costs to keep them.
pub fn capacities(alloc: Global, case: &Case) -> Result<Vec<u64>, AllocError>
    ensures { IfOk result (λ caps. AreCapacities (terms_of case.now) caps.items) }
{
    let count = case.definition().steps();
    let mut caps = Vec::with_capacity(alloc, 2 * count)?;
    for step in 0..count as u16 {
        caps.push(capacity(case.leave_price(step)))?;
    }
    for step in 0..count as u16 {
        caps.push(capacity(case.stand_price(step)))?;
    }
    Ok(caps)
}

/// The unbounded capacities, with 0 in place of each bounded one.
pub fn endless_only(alloc: Global, caps: &[u64]) -> Result<Vec<u64>, AllocError>
    ensures { IfOk result (λ only. only.items ≡ map endless caps.now) }
{
    caps.iter()
        .map(|most| if *most == ENDLESS { ENDLESS } else { 0 })
        .collect(alloc)
}
