//! The precedence of steps in a definition.
ghost use Rattle.std.specs.Prelude.{◌≡◌, ◌<◌, ◌↔◌, length, IsTrue, IfOk};

use crate::ranks::ranks_of;
use crate::step_sets::StepSet;
use crate::topological::topological_order;
use crate::transitive::transitive_closure;
use saga_def::Definition;
use std::alloc::{AllocError, Global};
use std::marker::Model;

/// The order of the steps of a definition by their needs. It borrows the definition, which provides the neighbors.
#[derive(Debug, Drop)]
pub struct Order<'d> {
    definition: &'d Definition,
    ranks: Vec<u16>,
    closure: Vec<StepSet>,
}

impl<'d> Model for Order<'d> {
    ghost use Rattle.saga_order.specs.Shape.{Shape, shape_of};
    ghost use Rattle.saga_order.specs.TransitiveClosure.{IsOrder};

    ghost Value = { Shape };

    ghost view = { λ o. shape_of o.definition.now };

    ghost invariant = { λ o. IsOrder (shape_of o.definition.now) o.ranks.items o.closure.items };
}

impl<'d> Order<'d> {
    ghost use Rattle.saga_def.specs.Neighbours.{AreNeedsOf, AreNeededBy};
    ghost use Rattle.saga_def.specs.Order.{Precedes, IsClosed, member};
    ghost use Rattle.saga_order.specs.Rank.{IsRank};
    ghost use Rattle.saga_order.specs.Shape.{shape_of, IsOrdered};

    /// The order of a definition. Takes time linear in the steps and needs. The transitive closure takes at most time
    /// proportional to the number of steps times the number of steps and needs, divided by the 64 bits of a word.
    pub fn of(alloc: Global, definition: &'d Definition) -> Result<Order<'d>, AllocError>
        ensures { IfOk result (λ order. order ≡ shape_of definition.now) }
    {
        let order = topological_order(alloc, definition)?;
        let ranks = ranks_of(alloc, definition, &order)?;
        let closure = transitive_closure(alloc, definition, &order)?;
        Ok(Order {
            definition,
            ranks,
            closure,
        })
    }

    /// The number of steps.
    pub fn count(&self) -> usize
        ensures count { result ≡ self.now.count }
        ensures ordered { IsOrdered self.now }
    {
        self.definition.steps()
    }

    /// Whether a step precedes another: a non-empty chain of needs leads from `b` to `a`.
    pub fn precedes(&self, a: u16, b: u16) -> bool
        requires known { a < self.now.count }
        requires also_known { b < self.now.count }
        ensures { IsTrue result ↔ Precedes self.now.needs a b }
    {
        self.closure[b as usize].contains(a)
    }

    /// The length of the longest chain of needs that starts at a step.
    pub fn rank(&self, step: u16) -> u16
        requires { step < self.now.count }
        ensures { IsRank self.now.needs step result }
    {
        self.ranks[step as usize]
    }

    /// Whether a set of steps, given as a truth value for each step, is dependency-closed. Takes time linear in the
    /// needs.
    pub fn is_closed(&self, set: &[bool]) -> bool
        requires { length set.now ≡ self.now.count }
        ensures { IsTrue result ↔ IsClosed self.now.needs (member set.now) }
    {
        for need in self.definition.all_needs() {
            if set[need.step as usize] && !set[need.on as usize] {
                return false;
            }
        }
        true
    }

    /// The steps that a step needs directly, in ascending order and each once.
    pub fn needs_of(&self, step: u16) -> &[u16]
        requires { step < self.now.count }
        ensures { AreNeedsOf self.now.needs step result.now }
    {
        self.definition.needs_of(step)
    }

    /// The steps that need a step directly, in ascending order and each once.
    pub fn needed_by(&self, step: u16) -> &[u16]
        requires { step < self.now.count }
        ensures { AreNeededBy self.now.needs step result.now }
    {
        self.definition.needed_by(step)
    }
}
