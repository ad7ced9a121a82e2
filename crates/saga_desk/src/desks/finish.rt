//! The end of a desk: its books are taken out and compared with the receipts.
ghost use Rattle.std.specs.Prelude.{◌≡◌, ◌≢◌, ℕ, ◌<◌, ◌↔◌, All, IsTrue, IfOk, IfErr, Some, length, slice_get};
ghost use Rattle.saga_desk.specs.Agreement.{Agree, AreSameReceipts};
ghost use Rattle.saga_desk.specs.Seat.{Seat};
ghost use Rattle.saga_desk.specs.Finish.{AreAll, AreOfShards, AreOwn, DidOneHistory, FinishIsRefused, HeadlineHolds, IsOfShard, KeepLegalHistories, MergesAreLegal};
ghost use Rattle.saga_desk.specs.Told.{HoldsTold};

use crate::agreement::agree;
use crate::desks::Desk;
use crate::policies::Policy;
use crate::shards::Seat;
use saga_core::Book;
use saga_def::Definition;
use saga_history::are_sound;
use std::marker::Brand;

/// Why a desk is not finished. The first three variants return desk and seats unchanged, and the last one returns the
/// books instead of the desk.
#[derive(Drop)]
pub enum FinishRefused<'d, P: Policy = Brand> {
    /// A seat has a number that no seat of the desk has, or two seats have the same number.
    Stranger(Desk<'d, P>, Vec<Seat>),
    /// A seat of the desk is missing.
    Missing(Desk<'d, P>, Vec<Seat>),
    OutOfMemory(Desk<'d, P>, Vec<Seat>),
    /// The books do not have the desk's shelf or numbers, or their events do not agree with the receipts.
    Torn(Vec<Book<'d>>, Vec<Seat>),
}

impl<'d, P: Policy> Desk<'d, P> {
    /// Takes the books out, and compares all receipts with all histories: they must have a merge in common. This call
    /// does not block.
    pub fn finish(self, seats: Vec<Seat>) -> Result<Vec<Book<'d>>, FinishRefused<'d, P>>
        ensures seats { IfOk result (λ books. AreAll self.entry seats.items) }
        ensures shards { IfOk result
            (λ books. AreOfShards self.entry.shelf self.entry.shards books.items) }
        ensures agree { IfOk result (λ books. Agree books.items seats.items) }
        ensures named { IfOk result (λ books. AreSameReceipts books.items seats.items) }
        ensures told { IfOk result (λ books. All (HoldsTold P.may P.may_abort) books.items) }
        ensures history { IfOk result
            (λ books. DidOneHistory self.entry.shelf books.items seats.items) }
        ensures legal { IfOk result (λ books. MergesAreLegal self.entry.shelf books.items) }
        ensures headline { IfOk result (λ books. HeadlineHolds self.entry.shelf books.items) }
        ensures why { IfErr result (λ refused. FinishIsRefused self.entry seats.items refused) }
    {
        if !are_own(&self, seats.as_slice()) {
            return Err(FinishRefused::Stranger(self, seats));
        }
        if seats.len() != self.seats as usize {
            return Err(FinishRefused::Missing(self, seats));
        }
        let alloc = *self.slots.allocator();
        let count = self.slots.len();
        let Ok(mut books) = Vec::with_capacity(alloc, count) else {
            return Err(FinishRefused::OutOfMemory(self, seats));
        };
        let Ok(mut taken) = vec![in alloc; 0usize; count] else {
            return Err(FinishRefused::OutOfMemory(self, seats));
        };
        let Ok(mut told) = vec![in alloc; 0usize; seats.len()] else {
            return Err(FinishRefused::OutOfMemory(self, seats));
        };
        let Desk {
            shelf,
            seats: _,
            slots,
        } = self;
        for slot in slots {
            books.push_reserved(slot.into_book());
        }
        see_histories(books.as_slice());
        if !are_of_shards(shelf, count, books.as_slice()) {
            return Err(FinishRefused::Torn(books, seats));
        }
        let agree = agree(
            books.as_slice(),
            seats.as_slice(),
            taken.as_mut_slice(),
            told.as_mut_slice(),
        );
        if !agree {
            return Err(FinishRefused::Torn(books, seats));
        }
        are_sound(shelf);
        Ok(books)
    }
}

/// Establishes that the history of each book is legal. It only reads.
fn see_histories(books: &[Book<'_>])
    ensures { KeepLegalHistories books.now }
{
    for i in 0..books.len() {
        let _ = books[i].history();
    }
}

/// Whether the seats are those of the desk: each number is one of the desk's, and no number occurs twice.
fn are_own<P: Policy>(desk: &Desk<'_, P>, seats: &[Seat]) -> bool
    ensures { IsTrue result ↔ AreOwn desk.now seats.now }
{
    for i in 0..seats.len() {
        if seats[i].number() >= desk.seats {
            return false;
        }
        if !is_new(seats, i) {
            return false;
        }
    }
    true
}

/// Whether no seat before this index has the number of the seat at the index.
fn is_new(seats: &[Seat], i: usize) -> bool
    requires { i < length seats.now }
    ensures { IsTrue result
        ↔ ((j : ℕ) (s t : Seat) → slice_get seats.now i ≡ Some s → slice_get seats.now j ≡ Some t
        → j < i → t.number ≢ s.number) }
{
    let number = seats[i].number();
    for j in 0..i {
        if seats[j].number() == number {
            return false;
        }
    }
    true
}

/// Whether there is a book for each of the shards, in order, with this shelf.
fn are_of_shards(shelf: &[Definition], shards: usize, books: &[Book<'_>]) -> bool
    ensures { IsTrue result ↔ AreOfShards shelf.now shards books.now }
{
    if books.len() != shards {
        return false;
    }
    for i in 0..books.len() {
        if !is_of_shard(shelf, shards, i, &books[i]) {
            return false;
        }
    }
    true
}

fn is_of_shard(shelf: &[Definition], shards: usize, shard: usize, book: &Book<'_>) -> bool
    ensures { IsTrue result ↔ IsOfShard shelf.now shards shard book.now }
{
    if book.first() as usize != shard {
        return false;
    }
    if book.stride() as usize != shards {
        return false;
    }
    is_same_shelf(book.shelf(), shelf)
}

/// Whether two shelves have the same definitions, by content, in the same order.
fn is_same_shelf(a: &[Definition], b: &[Definition]) -> bool
    ensures { IsTrue result ↔ (a.now ≡ b.now) }
{
    if a.len() != b.len() {
        return false;
    }
    for i in 0..a.len() {
        if !are_alike(&a[i], &b[i]) {
            return false;
        }
    }
    true
}

fn are_alike(a: &Definition, b: &Definition) -> bool
    ensures { IsTrue result ↔ (a.now ≡ b.now) }
{
    *a == *b
}
