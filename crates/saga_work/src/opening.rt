//! Opens the sagas of a run.
ghost use Rattle.std.specs.Prelude.{◌≡◌, ◌<◌, ◌≤◌, [], All, IfOk, IfErr, OnOk, length};
ghost use Rattle.saga_work.specs.Asked.{AreOpened, AreSeated, IsOpening, OpensAll};
ghost use Rattle.saga_work.specs.Faults.{AreOnShelf, IsRunFault, fault_of_opening};

use crate::faults::RunFault;
use saga_core::{MAX_SAGAS, OpenRefusal};
use saga_def::Definition;
use saga_desk::{Desk, Policy, Seat};
use std::alloc::Global;
use std::sync::Wait;

/// The fault of a saga that was not opened.
fn open_fault(saga: usize, why: OpenRefusal) -> RunFault
    ensures { result ≡ fault_of_opening saga why }
{
    match why {
        OpenRefusal::OutOfMemory => RunFault::OutOfMemory,
        why => RunFault::Open(saga, why),
    }
}

/// Opens each requested definition: the j-th on shard j modulo the number of shards.
fn open_all<P: Policy, R: Wait>(
    rt: &R,
    desk: &Desk<'_, P>,
    shards: u32,
    seat: &mut Seat,
    asks: &[u32],
) -> Result<(), RunFault>
    requires shards { desk.now.shards ≡ shards }
    requires some { 0 < shards }
    requires empty { seat.old.receipts ≡ [] }
    ensures all { OnOk result (OpensAll shards asks.now seat.new.receipts) }
    ensures only { OnOk result (All IsOpening seat.new.receipts) }
    ensures number { seat.new.number ≡ seat.old.number }
    ensures known { OnOk result (AreOnShelf desk.now.shelf asks.now (length asks.now)) }
    ensures why { IfErr result (λ fault. IsRunFault shards desk.now.shelf asks.now fault) }
{
    for j in 0..asks.len() {
        let shard = (j % shards as usize) as u32;
        match desk.open_saga(rt, seat, shard, asks[j]) {
            Ok(_) => {}
            // This case cannot happen: no other seat has opened a saga, and this seat has opened fewer than the maximum
            // on this shard.
            Err(OpenRefusal::Full) if j / (shards as usize) < MAX_SAGAS => {
                return Err(RunFault::OutOfMemory);
            }
            Err(why) => return Err(open_fault(j, why)),
        }
    }
    Ok(())
}

/// Returns a desk with its seats. The first seat has opened the requested sagas.
pub fn opened<'d, P: Policy, R: Wait>(
    rt: &R,
    alloc: Global,
    shelf: &'d [Definition],
    asks: &[u32],
    workers: u32,
    shards: u32,
) -> Result<(Desk<'d, P>, Vec<Seat>), RunFault>
    requires workers { (0 < workers) × (workers ≤ 16) }
    requires shards { (0 < shards) × (shards ≤ 16) }
    ensures desk { IfOk result
        (λ r. r.0 ≡ record { shelf = shelf.entry.now; seats = workers; shards = shards }) }
    ensures seats { IfOk result (λ r. AreOpened shards asks.now r.1.items) }
    ensures numbers { IfOk result (λ r. AreSeated workers r.1.items) }
    ensures known { OnOk result (AreOnShelf shelf.entry.now asks.now (length asks.now)) }
    ensures why { IfErr result (λ fault. IsRunFault shards shelf.entry.now asks.now fault) }
{
    let Ok((desk, mut seats)) = Desk::open_with_policy(alloc, shelf, workers, shards) else {
        return Err(RunFault::OutOfMemory);
    };
    open_all(rt, &desk, shards, &mut seats[0], asks)?;
    Ok((desk, seats))
}
