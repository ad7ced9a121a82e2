//! Sets of numbers with constant-time access to the minimum.
ghost use Rattle.std.specs.Prelude.{ℕ, Bool, ◌≡◌, ◌<◌, ◌≤◌, ◌*◌, ◌++◌, ◌∷◌, [], All, IfOk, IfErr, MatchOption, false, true, length, map, slice_index_or, slice_set, List, replicate};
ghost use Rattle.saga_rows.specs.BitSet.{IsBitSet, IsPut, marks};

use std::alloc::{AllocError, Global};
use std::marker::Model;

/// A set of numbers below a limit of at most 4,096. `words` has one bit for each number, and `summary` one bit for each
/// word that is not 0. Contracts see the set as a list of truth values.
#[derive(Drop)]
pub struct BitSet {
    words: Vec<u64>,
    summary: u64,
    len: usize,
}

impl Model for BitSet {
    ghost use Rattle.std.specs.Prelude.{List, Bool};
    ghost use Rattle.saga_rows.specs.BitSet.{IsBitSet, marks};

    ghost Value = { List Bool };

    ghost view = { λ b. marks b.words.items b.len };

    ghost invariant = { λ b. IsBitSet b.words.items b.summary b.len };
}

/// Sets or clears a bit.
fn put_bit(word: u64, b: usize, on: bool) -> u64
    requires { b < 64 }
    ensures { IsPut word b on result }
{
    if on {
        word | (1u64 << b)
    } else {
        word & !(1u64 << b)
    }
}

/// Adds or removes a number. Returns the new summary.
fn put(words: &mut [u64], summary: u64, i: usize, on: bool) -> u64
    requires within { i < 64 * length words.old }
    requires few { length words.old ≤ 64 }
    ensures { (len : ℕ) → i < len → IsBitSet words.old summary len
        → IsBitSet words.new result len
        × (marks words.new len ≡ slice_set (marks words.old len) i on) }
{
    let w = i / 64;
    let word = put_bit(words[w], i % 64, on);
    words[w] = word;
    put_bit(summary, w, word != 0)
}

/// The minimum of the set.
fn least(words: &[u64], summary: u64) -> Option<usize>
    requires few { length words.now ≤ 64 }
    ensures { (len : ℕ) → IsBitSet words.now summary len
        → MatchOption result
        ((i : ℕ) → i < len → slice_index_or (marks words.now len) i false ≡ false)
        (λ i. (i < len) × (slice_index_or (marks words.now len) i false ≡ true)
        × ((k : ℕ) → k < i → slice_index_or (marks words.now len) k false ≡ false)) }
{
    if summary == 0 {
        return None;
    }
    let w = summary.trailing_zeros() as usize;
    if w >= words.len() {
        return None;
    }
    Some(64 * w + words[w].trailing_zeros() as usize)
}

impl BitSet {
    /// The empty set of numbers below a limit.
    pub fn new(alloc: Global, len: usize) -> Result<BitSet, AllocError>
        requires { len ≤ 4095 }
        ensures { IfOk result (λ bits. bits ≡ replicate len false) }
    {
        let words = vec![in alloc; 0; len / 64 + 1]?;
        Ok(BitSet {
            words,
            summary: 0,
            len,
        })
    }

    /// The set with limit 0. Takes no memory.
    pub fn empty(alloc: Global) -> BitSet
        ensures { result ≡ [] }
    {
        BitSet {
            words: Vec::new(alloc),
            summary: 0,
            len: 0,
        }
    }

    /// A copy of the set.
    pub fn copy(&self, alloc: Global) -> Result<BitSet, AllocError>
        ensures { IfOk result (λ bits. bits ≡ self.now) }
    {
        Ok(BitSet {
            words: self.words.to_vec(alloc)?,
            summary: self.summary,
            len: self.len,
        })
    }

    /// The limit of the set.
    pub fn len(&self) -> usize
        ensures { result ≡ length self.now }
    {
        self.len
    }

    /// Raises the limit by one. The new number is not in the set.
    pub fn push(&mut self) -> Result<(), AllocError>
        requires { length self.old < 4096 }
        ensures ok { IfOk result (λ _. self.new ≡ self.old ++ false ∷ []) }
        ensures err { IfErr result (λ _. self.new ≡ self.old) }
    {
        if self.len == 64 * self.words.len() {
            self.words.push(0)?;
        }
        self.len += 1;
        Ok(())
    }

    /// Adds or removes a number.
    pub fn set(&mut self, i: usize, on: bool)
        requires { i < length self.old }
        ensures { self.new ≡ slice_set self.old i on }
    {
        self.summary = put(&mut self.words, self.summary, i, on);
    }

    /// Whether a number is in the set.
    pub fn has(&self, i: usize) -> bool
        requires { i < length self.now }
        ensures { result ≡ slice_index_or self.now i false }
    {
        (self.words[i / 64] >> (i % 64)) & 1 == 1
    }

    /// The minimum of the set.
    pub fn first(&self) -> Option<usize>
        ensures { MatchOption result
            ((i : ℕ) → i < length self.now → slice_index_or self.now i false ≡ false)
            (λ i. (i < length self.now) × (slice_index_or self.now i false ≡ true)
            × ((k : ℕ) → k < i → slice_index_or self.now k false ≡ false)) }
    {
        least(&self.words, self.summary)
    }
}
