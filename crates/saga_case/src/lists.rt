//! The lists of an answer. Contracts see them as lists, so two lists of the same items are equal.
ghost use Rattle.std.specs.Prelude.{◌≡◌};

use std::marker::Model;

/// A set of steps: a truth value for each step in order.
#[derive(Debug, Drop)]
pub struct Marks {
    marks: Vec<bool>,
}

impl Model for Marks {
    ghost use Rattle.std.specs.Prelude.{List, Bool};

    ghost Value = { List Bool };

    ghost view = { λ m. m.marks.items };
}

impl Marks {
    /// The marks of a list. It takes over the list's memory.
    pub fn new(marks: Vec<bool>) -> Marks
        ensures { result ≡ marks.items }
    {
        Marks { marks }
    }

    /// The marks as a slice.
    pub fn as_slice(&self) -> &[bool]
        ensures { result.now ≡ self.now }
    {
        self.marks.as_slice()
    }
}

/// A chain of steps by their numbers.
#[derive(Debug, Drop)]
pub struct Chain {
    steps: Vec<u16>,
}

impl Model for Chain {
    ghost use Rattle.std.specs.Prelude.{List, ℕ};

    ghost Value = { List ℕ };

    ghost view = { λ c. c.steps.items };
}

impl Chain {
    /// The chain of a list. It takes over the list's memory.
    pub fn new(steps: Vec<u16>) -> Chain
        ensures { result ≡ steps.items }
    {
        Chain { steps }
    }

    /// The steps as a slice.
    pub fn as_slice(&self) -> &[u16]
        ensures { result.now ≡ self.now }
    {
        self.steps.as_slice()
    }
}
