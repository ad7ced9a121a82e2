//! The list `kept` of a plan, and the set of steps that it denotes.
ghost use Rattle.std.specs.Prelude.{◌≡◌, ◌↔◌, nat_lt, IsTrue, IfOk};
ghost use Rattle.std.specs.List.{list_all};
ghost use Rattle.std.specs.List.Sorted.{IsStrictlyIncreasing};
ghost use Rattle.saga_json.specs.Reads.{Gives};
ghost use Rattle.saga_cert.specs.Kept.{is_kept, marks_of, kept_of};

use saga_json::JsonFault;
use std::alloc::{AllocError, Global};

/// Whether each number is below the next.
fn is_increasing(numbers: &[u64]) -> bool
    ensures { IsTrue result ↔ IsStrictlyIncreasing numbers.now }
{
    for i in 1..numbers.len() {
        if numbers[i - 1] >= numbers[i] {
            return false;
        }
    }
    true
}

/// Whether each number is below the next and below the count.
fn is_kept(numbers: &[u64], count: usize) -> bool
    ensures { result ≡ is_kept count numbers.now }
{
    is_increasing(numbers) && numbers.iter().all(|number| *number < count as u64)
}

/// A truth value for each number below the count: true if the number is in the list.
fn marks_of(alloc: Global, numbers: &[u64], count: usize) -> Result<Vec<bool>, AllocError>
    requires { IsTrue (list_all (λ n. nat_lt n count) numbers.now) }
    ensures { IfOk result (λ marks. marks.items ≡ marks_of count numbers.now) }
{
    let mut marks = vec![in alloc; false; count]?;
    for number in numbers {
        marks[*number as usize] = true;
    }
    Ok(marks)
}

/// The truth values for a list whose numbers increase and are below the count.
pub fn kept_of(alloc: Global, numbers: &[u64], count: usize) -> Result<Vec<bool>, JsonFault>
    ensures { Gives (λ marks. marks.items) result (kept_of count numbers.now) }
{
    if !is_kept(numbers, count) {
        return Err(JsonFault::Kept);
    }
    Ok(marks_of(alloc, numbers, count)?)
}
