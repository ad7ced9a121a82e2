//! Definitions. Each one is sound.
ghost use Rattle.std.specs.Prelude.{◌≡◌, ◌<◌, ◌↔◌, IsTrue, IfOk, IfErr, OnOk, length, slice_get, Some};
ghost use Rattle.saga_def.specs.Contents.{contents};
ghost use Rattle.saga_def.specs.Faults.{IsFirstFault};
ghost use Rattle.saga_def.specs.Sound.{KeepsRules};

use crate::adjacency::{Adjacency, adjacency_of, entries_at};
use crate::cycles::find_cycle;
use crate::faults::DefFault;
use crate::limits::{MAX_NEEDS, MAX_STEPS};
use crate::rules::{
    is_name, names_are_distinct, names_are_good, needs_are_known, needs_are_single,
    prices_are_small, tries_are_in_range,
};
use crate::steps::{Need, Step};
use crate::texts::Text;
use std::alloc::Global;
use std::marker::Model;

/// A saga's definition: its name, its steps in order, and its needs in the order of the input.
#[derive(Debug, Drop)]
pub struct Definition {
    name: Text,
    steps: Vec<Step>,
    needs: Vec<Need>,
    adjacency: Adjacency,
}

impl Model for Definition {
    ghost use Rattle.saga_def.specs.Contents.{Contents, contents};
    ghost use Rattle.saga_def.specs.Sound.{IsDefinition};

    ghost Value = { Contents };

    ghost view = { λ d. contents d.name d.steps.items d.needs.items };

    ghost invariant = { λ d. IsDefinition
        (contents d.name d.steps.items d.needs.items) d.adjacency };
}

/// Whether the parts keep all rules except the one about cycles, or the first rule that they break.
fn keep_rules(alloc: Global, name: &str, steps: &[Step], needs: &[Need]) -> Result<(), DefFault>
    ensures kept { OnOk result (KeepsRules (contents name.now steps.now needs.now)) }
    ensures fault { IfErr result (IsFirstFault (contents name.now steps.now needs.now)) }
{
    if steps.is_empty() {
        return Err(DefFault::Empty);
    }
    if steps.len() > MAX_STEPS {
        return Err(DefFault::TooManySteps);
    }
    if needs.len() > MAX_NEEDS {
        return Err(DefFault::TooManyNeeds);
    }
    if !is_name(name) || !names_are_good(steps) {
        return Err(DefFault::BadName);
    }
    if !names_are_distinct(alloc, steps)? {
        return Err(DefFault::DoubleName);
    }
    if !needs_are_known(needs, steps.len()) {
        return Err(DefFault::UnknownStep);
    }
    if !needs_are_single(alloc, needs)? {
        return Err(DefFault::DoubleNeed);
    }
    if !prices_are_small(steps) {
        return Err(DefFault::PriceTooLarge);
    }
    if !tries_are_in_range(steps) {
        return Err(DefFault::TriesOutOfRange);
    }
    Ok(())
}

impl Definition {
    ghost use Rattle.saga_def.specs.Sound.{IsSound};
    ghost use Rattle.saga_def.specs.Same.{same_contents};
    ghost use Rattle.saga_def.specs.Neighbours.{needs_of, needed_by, places_of, places_on, AreNeedsOf, AreNeededBy, ArePlacesOf, ArePlacesOn};

    /// Returns the definition with this name and these steps and needs, in the same order, or the first fault of
    /// [`DefFault`]. Takes time linear in the steps and needs.
    pub fn build(
        alloc: Global,
        name: Text,
        steps: Vec<Step>,
        needs: Vec<Need>,
    ) -> Result<Definition, DefFault>
        ensures built { IfOk result (λ d. d ≡ contents name steps.items needs.items) }
        ensures sound { IfOk result (λ d. IsSound d) }
        ensures fault { IfErr result
            (λ fault. IsFirstFault (contents name steps.items needs.items) fault) }
        ensures accepts { IsSound (contents name steps.items needs.items)
            → IfErr result (λ fault. fault ≡ DefFault.OutOfMemory) }
    {
        keep_rules(alloc, name.as_str(), &steps, &needs)?;
        let adjacency = adjacency_of(alloc, &needs, steps.len())?;
        if let Some(cycle) = find_cycle(alloc, &needs, &adjacency.dependants, steps.len())? {
            return Err(DefFault::Cycle(cycle));
        }
        Ok(Definition {
            name,
            steps,
            needs,
            adjacency,
        })
    }

    fn holds_same(&self, other: &Definition) -> bool
        ensures { result ≡ same_contents self.now other.now }
    {
        self.name == other.name && self.steps == other.steps && self.needs == other.needs
    }

    /// The saga's name.
    pub fn name(&self) -> &str
        ensures { result.now ≡ self.now.name }
    {
        self.name.as_str()
    }

    /// The number of steps: 1 to [`MAX_STEPS`].
    pub fn steps(&self) -> usize
        ensures count { result ≡ length self.now.steps }
        ensures sound { IsSound self.now }
    {
        self.steps.len()
    }

    /// The number of needs: at most [`MAX_NEEDS`].
    pub fn needs(&self) -> usize
        ensures count { result ≡ length self.now.needs }
        ensures sound { IsSound self.now }
    {
        self.needs.len()
    }

    /// The step with this number.
    pub fn step(&self, i: u16) -> &Step
        requires { i < length self.now.steps }
        ensures { slice_get self.now.steps i ≡ Some result.now }
    {
        &self.steps[i as usize]
    }

    /// The need at an index, in the order of the input.
    pub fn need(&self, k: usize) -> Need
        requires { k < length self.now.needs }
        ensures { slice_get self.now.needs k ≡ Some result }
    {
        self.needs[k]
    }

    /// The steps in order.
    pub fn all_steps(&self) -> &[Step]
        ensures items { result.now ≡ self.now.steps }
        ensures sound { IsSound self.now }
    {
        self.steps.as_slice()
    }

    /// The needs, in the order of the input.
    pub fn all_needs(&self) -> &[Need]
        ensures items { result.now ≡ self.now.needs }
        ensures sound { IsSound self.now }
    {
        self.needs.as_slice()
    }

    /// The steps that a step needs directly, in ascending order and each once.
    pub fn needs_of(&self, i: u16) -> &[u16]
        requires { i < length self.now.steps }
        ensures value { result.now ≡ needs_of self.now i }
        ensures exact { AreNeedsOf self.now.needs i result.now }
        ensures sound { IsSound self.now }
    {
        let needs = &self.adjacency.needs;
        entries_at(needs.starts.as_slice(), needs.steps.as_slice(), i as usize)
    }

    /// The indices of the needs of a step. The order is that of [`needs_of`](Self::needs_of): each index is that of the
    /// need on the step there.
    pub fn places_of(&self, i: u16) -> &[u16]
        requires { i < length self.now.steps }
        ensures value { result.now ≡ places_of self.now i }
        ensures exact { ArePlacesOf self.now.needs i (needs_of self.now i) result.now }
        ensures sound { IsSound self.now }
    {
        let needs = &self.adjacency.needs;
        entries_at(needs.starts.as_slice(), needs.places.as_slice(), i as usize)
    }

    /// The steps that need a step directly, in ascending order and each once.
    pub fn needed_by(&self, i: u16) -> &[u16]
        requires { i < length self.now.steps }
        ensures value { result.now ≡ needed_by self.now i }
        ensures exact { AreNeededBy self.now.needs i result.now }
        ensures sound { IsSound self.now }
    {
        let dependants = &self.adjacency.dependants;
        entries_at(
            dependants.starts.as_slice(),
            dependants.steps.as_slice(),
            i as usize,
        )
    }

    /// The indices of the needs on a step. The order is that of [`needed_by`](Self::needed_by): each index is that of
    /// the need of the step there.
    pub fn places_on(&self, i: u16) -> &[u16]
        requires { i < length self.now.steps }
        ensures value { result.now ≡ places_on self.now i }
        ensures exact { ArePlacesOn self.now.needs i (needed_by self.now i) result.now }
        ensures sound { IsSound self.now }
    {
        let dependants = &self.adjacency.dependants;
        entries_at(
            dependants.starts.as_slice(),
            dependants.places.as_slice(),
            i as usize,
        )
    }
}

impl PartialEq for Definition {
    ghost use Rattle.std.specs.Cmp.{partial_equiv_from_equiv};
    ghost use Rattle.saga_def.specs.Same.{same_contents};
    ghost use Rattle.saga_def.specs.SameLaws.{same_contents_laws};

    ghost eq = { same_contents };

    ghost laws = { partial_equiv_from_equiv same_contents_laws };

    /// Whether two definitions have the same contents: name, steps and needs, each in order.
    fn eq(&self, other: &Definition) -> bool
        ensures test { result ≡ same_contents self.now other.now }
        ensures exact { IsTrue result ↔ (self.now ≡ other.now) }
    {
        self.holds_same(other)
    }
}

impl Eq for Definition {
    ghost use Rattle.saga_def.specs.SameLaws.{same_contents_laws};

    ghost laws = { same_contents_laws };
}
