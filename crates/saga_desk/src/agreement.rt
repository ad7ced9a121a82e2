//! The comparison of all receipts with all histories.
ghost use Rattle.std.specs.Prelude.{◌≡◌, ◌<◌, ◌≤◌, ◌+◌, ◌^◌, ◌↔◌, ℕ, [], IsTrue, IfSome, IfNone, length, slice_index, slice_index_or, replicate};
ghost use Rattle.saga_desk.specs.Agreement.{Agree, histories_of, marks_of, receipts_of};
ghost use Rattle.saga_desk.specs.Rests.{IsNextIn, IsNextOf, NoneIsNextIn};

use crate::receipts::Receipt;
use crate::shards::Seat;
use saga_core::Book;
use saga_history::Mark;

/// Returns whether the receipts of all seats are the events of the books, each exactly once, in one common order. This
/// order extends the order of each book and the order of each seat. `taken` and `told` have a zero for each book and
/// for each seat.
///
/// Repeatedly takes an event that is next both in its book and in its seat. Takes time about linear in the number of
/// events, and at most that number times the number of seats.
pub(crate) fn agree(
    books: &[Book<'_>],
    seats: &[Seat],
    taken: &mut [usize],
    told: &mut [usize],
) -> bool
    requires books { taken.old ≡ replicate (length books.now) 0 }
    requires seats { told.old ≡ replicate (length seats.now) 0 }
    ensures { IsTrue result ↔ Agree books.now seats.now }
{
    let mut first = 0;
    while let Some((shard, seat)) = next_from(books, seats, taken, told, first) {
        taken[shard] += 1;
        told[seat] += 1;
        first = seat;
    }
    are_taken(books, taken) && are_told(seats, told)
}

/// A book and a seat whose next event and next receipt are the same. Searches the seats from `first` on, and then the
/// seats before it.
fn next_from(
    books: &[Book<'_>],
    seats: &[Seat],
    taken: &[usize],
    told: &[usize],
    first: usize,
) -> Option<(usize, usize)>
    requires books { length taken.now ≡ length books.now }
    requires seats { length told.now ≡ length seats.now }
    requires within { first ≤ length seats.now }
    ensures within { IfSome result
        (λ found. (found.0 < length books.now) × (found.1 < length seats.now)) }
    ensures some { IfSome result
        (λ found. IsNextIn books.now taken.now seats.now told.now found.0 found.1) }
    ensures none { IfNone result ((k : ℕ) → NoneIsNextIn books.now taken.now seats.now told.now k) }
    ensures room { IfSome result
        (λ found. (slice_index taken.now found.0 + 1 < 2 ^ 64)
        × (slice_index told.now found.1 + 1 < 2 ^ 64)) }
{
    if let Some(found) = next_between(books, seats, taken, told, first, seats.len()) {
        return Some(found);
    }
    next_between(books, seats, taken, told, 0, first)
}

/// The same, for the seats between two numbers.
fn next_between(
    books: &[Book<'_>],
    seats: &[Seat],
    taken: &[usize],
    told: &[usize],
    from: usize,
    to: usize,
) -> Option<(usize, usize)>
    requires books { length taken.now ≡ length books.now }
    requires seats { length told.now ≡ length seats.now }
    requires within { to ≤ length seats.now }
    ensures within { IfSome result
        (λ found. (found.0 < length books.now) × (found.1 < length seats.now)) }
    ensures some { IfSome result
        (λ found. IsNextIn books.now taken.now seats.now told.now found.0 found.1) }
    ensures none { IfNone result
        ((k : ℕ) → from ≤ k → k < to → NoneIsNextIn books.now taken.now seats.now told.now k) }
    ensures room { IfSome result
        (λ found. (slice_index taken.now found.0 + 1 < 2 ^ 64)
        × (slice_index told.now found.1 + 1 < 2 ^ 64)) }
{
    for seat in from..to {
        if let Some(shard) = next_of_seat(books, seats, taken, told, seat) {
            return Some((shard, seat));
        }
    }
    None
}

/// The book whose next event is that of the seat's next receipt.
fn next_of_seat(
    books: &[Book<'_>],
    seats: &[Seat],
    taken: &[usize],
    told: &[usize],
    seat: usize,
) -> Option<usize>
    requires books { length taken.now ≡ length books.now }
    requires seats { length told.now ≡ length seats.now }
    requires within { seat < length seats.now }
    ensures within { IfSome result (λ shard. shard < length books.now) }
    ensures some { IfSome result
        (λ shard. IsNextIn books.now taken.now seats.now told.now shard seat) }
    ensures none { IfNone result (NoneIsNextIn books.now taken.now seats.now told.now seat) }
    ensures room { IfSome result
        (λ shard. (slice_index taken.now shard + 1 < 2 ^ 64)
        × (slice_index told.now seat + 1 < 2 ^ 64)) }
{
    let receipts = seats[seat].receipts();
    let number = told[seat];
    if number >= receipts.len() {
        return None;
    }
    book_of(books, taken, receipts[number])
}

/// The book whose next event is that of this receipt.
fn book_of(books: &[Book<'_>], taken: &[usize], receipt: Receipt) -> Option<usize>
    requires { length taken.now ≡ length books.now }
    ensures within { IfSome result (λ shard. shard < length books.now) }
    ensures some { IfSome result
        (λ shard. IsNextOf (histories_of books.now) taken.now shard receipt) }
    ensures none { IfNone result
        ((shard : ℕ) → IsNextOf (histories_of books.now) taken.now shard receipt → ⊥) }
    ensures room { IfSome result (λ shard. slice_index taken.now shard + 1 < 2 ^ 64) }
{
    let shard = receipt.shard as usize;
    if shard >= books.len() {
        return None;
    }
    let place = taken[shard];
    if place != receipt.place {
        return None;
    }
    let history = books[shard].history();
    if place >= history.len() {
        return None;
    }
    if !is_same(&history[place].mark(), &receipt.mark) {
        return None;
    }
    Some(shard)
}

fn is_same(a: &Mark, b: &Mark) -> bool
    ensures { IsTrue result ↔ (a.now ≡ b.now) }
{
    a == b
}

/// Whether all events of each history are consumed.
fn are_taken(books: &[Book<'_>], taken: &[usize]) -> bool
    requires { length taken.now ≡ length books.now }
    ensures { IsTrue result
        ↔ ((i : ℕ) → i < length (marks_of books.now)
        → length (slice_index_or (marks_of books.now) i []) ≤ slice_index taken.now i) }
{
    for i in 0..books.len() {
        if taken[i] < books[i].history().len() {
            return false;
        }
    }
    true
}

/// Whether all receipts of each seat are consumed.
fn are_told(seats: &[Seat], told: &[usize]) -> bool
    requires { length told.now ≡ length seats.now }
    ensures { IsTrue result
        ↔ ((i : ℕ) → i < length (receipts_of seats.now)
        → length (slice_index_or (receipts_of seats.now) i []) ≤ slice_index told.now i) }
{
    for i in 0..seats.len() {
        if told[i] < seats[i].receipts().len() {
            return false;
        }
    }
    true
}
