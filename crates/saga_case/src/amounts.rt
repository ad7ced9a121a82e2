//! The amounts of a flow. Contracts see them as a list of numbers.
ghost use Rattle.std.specs.Prelude.{◌≡◌, ◌<◌, ◌≤◌, ◌^◌, All, IfOk, length, slice_index};

use std::alloc::{AllocError, Global};
use std::marker::Model;

/// Amounts of a flow in order. Each takes two, four or eight bytes, the smallest size that is sufficient for all of
/// them.
#[derive(Debug, Drop)]
pub struct Amounts {
    amounts: Widths,
}

/// Amounts of two, four or eight bytes.
#[derive(Debug, Drop)]
enum Widths {
    Two(Vec<u16>),
    Four(Vec<u32>),
    Eight(Vec<u64>),
}

impl Model for Amounts {
    ghost use Rattle.std.specs.Prelude.{List, ℕ};
    ghost use Rattle.saga_case.specs.Amounts.{amounts_in};

    ghost Value = { List ℕ };

    ghost view = { λ a. amounts_in a.amounts };
}

/// The bitwise or of all amounts. No amount is greater.
fn bits_of(amounts: &[u64]) -> u64
    ensures { All (λ a. a ≤ result) amounts.now }
{
    let mut bits = 0;
    for amount in amounts {
        bits |= *amount;
    }
    bits
}

/// The amounts in two bytes each.
fn in_two_bytes(alloc: Global, amounts: &[u64]) -> Result<Vec<u16>, AllocError>
    requires { All (λ a. a < 2 ^ 16) amounts.now }
    ensures { IfOk result (λ list. list.items ≡ amounts.now) }
{
    let mut list = vec![in alloc; 0u16; amounts.len()]?;
    for place in 0..amounts.len() {
        list[place] = amounts[place] as u16;
    }
    Ok(list)
}

/// The amounts in four bytes each.
fn in_four_bytes(alloc: Global, amounts: &[u64]) -> Result<Vec<u32>, AllocError>
    requires { All (λ a. a < 2 ^ 32) amounts.now }
    ensures { IfOk result (λ list. list.items ≡ amounts.now) }
{
    let mut list = vec![in alloc; 0u32; amounts.len()]?;
    for place in 0..amounts.len() {
        list[place] = amounts[place] as u32;
    }
    Ok(list)
}

impl Amounts {
    /// The amounts of a list.
    pub fn new(alloc: Global, amounts: &[u64]) -> Result<Amounts, AllocError>
        ensures { IfOk result (λ own. own ≡ amounts.now) }
    {
        let bits = bits_of(amounts);
        let amounts = if bits <= u64::from(u16::MAX) {
            Widths::Two(in_two_bytes(alloc, amounts)?)
        } else if bits <= u64::from(u32::MAX) {
            Widths::Four(in_four_bytes(alloc, amounts)?)
        } else {
            Widths::Eight(Vec::from_slice(alloc, amounts)?)
        };
        Ok(Amounts { amounts })
    }

    /// The number of amounts.
    pub fn len(&self) -> usize
        ensures { result ≡ length self.now }
    {
        match &self.amounts {
            Widths::Two(list) => list.len(),
            Widths::Four(list) => list.len(),
            Widths::Eight(list) => list.len(),
        }
    }

    /// The amount at an index, counted from 0.
    pub fn get(&self, place: usize) -> u64
        requires { place < length self.now }
        ensures { result ≡ slice_index self.now place }
    {
        match &self.amounts {
            Widths::Two(list) => u64::from(list[place]),
            Widths::Four(list) => u64::from(list[place]),
            Widths::Eight(list) => list[place],
        }
    }
}
