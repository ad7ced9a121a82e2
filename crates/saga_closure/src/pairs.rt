//! Short paths: over one step; and then over a need and the two steps that it joins.
//!
//! They need no search: when no path over one step carries anything, the paths over one need are the shortest.
ghost use Rattle.std.specs.Prelude.{◌≡◌, ◌≢◌, ◌<◌, ◌+◌, ◌^◌, ℕ, length, min, slice_index, slice_get, slice_set, Some};
ghost use Rattle.saga_def.specs.Neighbours.{a_need};
ghost use Rattle.saga_flow.specs.Network.{IsNetwork};
ghost use Rattle.saga_flow.specs.Reached.{HasUnbounded, Reaches};
ghost use Rattle.saga_closure.specs.Apart.{IsApart, IsOneSided};
ghost use Rattle.saga_closure.specs.Capacities.{room_at};
ghost use Rattle.saga_closure.specs.CaseNet.{network_of};
ghost use Rattle.saga_closure.specs.Nets.{terms_in, arcs_in};
ghost use Rattle.saga_closure.specs.Largest.{IsOnTheWay};

use crate::links::links_from;
use crate::nets::{ClosureNet, Residual};
use crate::rooms::room_along;
use saga_flow::Progress;

/// The smaller of the residual capacities of two arcs, from the source and to the sink.
fn least_room(net: &ClosureNet, on: &[u64], into: usize, out: usize) -> u64
    requires sized { length on.now ≡ length (arcs_in net.now) }
    requires into { into < length net.now.caps.now }
    requires out { out < length net.now.caps.now }
    ensures { result
        ≡ min (room_at net.now.caps.now on.now into) (room_at net.now.caps.now on.now out) }
{
    let residual = Residual { net: &*net, on };
    room_along(&residual, into).min(room_along(&residual, out))
}

/// Adds to the amount on an arc.
fn add(progress: &mut Progress, arc: usize, more: u64)
    requires within { arc < length progress.old.on.items }
    requires fits { slice_index progress.old.on.items arc + more < 2 ^ 64 }
    ensures on { progress.new.on.items ≡ slice_set progress.old.on.items arc
        (slice_index progress.old.on.items arc + more) }
    ensures value { progress.new.value ≡ progress.old.value }
    ensures rounds { progress.new.rounds ≡ progress.old.rounds }
{
    progress.on[arc] += more;
}

/// Counts a round that increases the value by `more`.
fn count_round(progress: &mut Progress, more: u64)
    requires value { progress.old.value + more < 2 ^ 64 }
    requires rounds { progress.old.rounds + 1 < 2 ^ 64 }
    ensures on { progress.new.on.items ≡ progress.old.on.items }
    ensures value { progress.new.value ≡ progress.old.value + more }
    ensures rounds { progress.new.rounds ≡ progress.old.rounds + 1 }
{
    progress.value += more;
    progress.rounds += 1;
}

/// Augments along the path from the source over a step to the sink.
fn send_over(net: &ClosureNet, v: usize, progress: &mut Progress)
    requires network { IsNetwork (network_of (terms_in net.now)) }
    requires apart { Reaches (HasUnbounded (arcs_in net.now)) 0 1 → ⊥ }
    requires inside { v < (terms_in net.now).count }
    requires progress { IsOnTheWay (terms_in net.now) progress.old }
    requires small { progress.old.value < 2 ^ 63 }
    ensures progress { IsOnTheWay (terms_in net.now) progress.new }
    ensures small { progress.new.value < 2 ^ 63 }
    ensures one_sided { IsOneSided net.now.caps.now progress.new.on.items (terms_in net.now).count v }
    ensures others { (k : ℕ) → k ≢ v → k ≢ (terms_in net.now).count + v
        → slice_index progress.new.on.items k ≡ slice_index progress.old.on.items k }
{
    let out = net.definition.steps() + v;
    let more = least_room(net, progress.on.as_slice(), v, out);
    if more > 0 {
        add(progress, v, more);
        add(progress, out, more);
        count_round(progress, more);
    }
}

/// Augments along the path over each step.
pub fn send_straight(net: &ClosureNet, progress: &mut Progress)
    requires network { IsNetwork (network_of (terms_in net.now)) }
    requires apart { Reaches (HasUnbounded (arcs_in net.now)) 0 1 → ⊥ }
    requires progress { IsOnTheWay (terms_in net.now) progress.old }
    requires small { progress.old.value < 2 ^ 63 }
    ensures progress { IsOnTheWay (terms_in net.now) progress.new }
    ensures small { progress.new.value < 2 ^ 63 }
    ensures one_sided { (v : ℕ) → v < (terms_in net.now).count
        → IsOneSided net.now.caps.now progress.new.on.items (terms_in net.now).count v }
{
    for v in 0..net.definition.steps() {
        send_over(net, v, progress);
    }
}

/// Augments along the path from the source to a step, over its need at an index, to the sink.
fn send_by(net: &ClosureNet, v: u16, u: u16, place: u16, progress: &mut Progress)
    requires network { IsNetwork (network_of (terms_in net.now)) }
    requires apart { Reaches (HasUnbounded (arcs_in net.now)) 0 1 → ⊥ }
    requires need { slice_get (terms_in net.now).needs place ≡ Some (a_need v u) }
    requires far { IsApart (arcs_in net.now) progress.old.on.items 3 }
    requires progress { IsOnTheWay (terms_in net.now) progress.old }
    requires small { progress.old.value < 2 ^ 63 }
    ensures far { IsApart (arcs_in net.now) progress.new.on.items 3 }
    ensures progress { IsOnTheWay (terms_in net.now) progress.new }
    ensures small { progress.new.value < 2 ^ 63 }
{
    let count = net.definition.steps();
    let into = v as usize;
    let out = count + u as usize;
    let more = least_room(net, progress.on.as_slice(), into, out);
    if more > 0 {
        add(progress, into, more);
        add(progress, 2 * count + place as usize, more);
        add(progress, out, more);
        count_round(progress, more);
    }
}

/// Augments along the paths from the source to a step, over each of its needs, to the sink.
fn send_from(net: &ClosureNet, v: u16, progress: &mut Progress)
    requires network { IsNetwork (network_of (terms_in net.now)) }
    requires apart { Reaches (HasUnbounded (arcs_in net.now)) 0 1 → ⊥ }
    requires inside { v < (terms_in net.now).count }
    requires far { IsApart (arcs_in net.now) progress.old.on.items 3 }
    requires progress { IsOnTheWay (terms_in net.now) progress.old }
    requires small { progress.old.value < 2 ^ 63 }
    ensures far { IsApart (arcs_in net.now) progress.new.on.items 3 }
    ensures progress { IsOnTheWay (terms_in net.now) progress.new }
    ensures small { progress.new.value < 2 ^ 63 }
{
    let (needed, places) = links_from(net.definition, v, true);
    for e in 0..needed.len() {
        let residual = Residual {
            net: &*net,
            on: progress.on.as_slice(),
        };
        if room_along(&residual, v as usize) == 0 {
            return;
        }
        send_by(net, v, needed[e], places[e], progress);
    }
}

/// Augments along the paths over each need, when no path over one step carries anything.
pub fn send_over_needs(net: &ClosureNet, progress: &mut Progress)
    requires network { IsNetwork (network_of (terms_in net.now)) }
    requires apart { Reaches (HasUnbounded (arcs_in net.now)) 0 1 → ⊥ }
    requires one_sided { (v : ℕ) → v < (terms_in net.now).count
        → IsOneSided net.now.caps.now progress.old.on.items (terms_in net.now).count v }
    requires progress { IsOnTheWay (terms_in net.now) progress.old }
    requires small { progress.old.value < 2 ^ 63 }
    ensures progress { IsOnTheWay (terms_in net.now) progress.new }
    ensures small { progress.new.value < 2 ^ 63 }
{
    for v in 0..net.definition.steps() as u16 {
        send_from(net, v, progress);
    }
}
