//! The marks of an answer: the steps that a plan keeps and the needs between them, or a chain and the needs along it.
ghost use Rattle.std.specs.Prelude.{ℕ, ◌≡◌, ◌==◌, ◌&&◌, IfOk, nat_eq, option_map};
ghost use Rattle.std.specs.HashSet.{contains};
ghost use Rattle.std.specs.List.{list_any};
ghost use Rattle.saga_def.specs.Order.{member};
ghost use Rattle.saga_draw.specs.Marks.{AreMarksOf, along, mark_in, mark_if, need_mark_in};

use saga_case::Answer;
use saga_def::Need;
use std::alloc::{AllocError, Global};
use std::collections::HashSet;

/// The mark of a step or a need.
#[derive(Clone, Copy, Debug, PartialEq, Eq)]
pub enum Mark {
    Plain,
    /// A plan keeps it.
    Kept,
    /// It is on the chain that shows that no set is allowed.
    Chained,
}

/// All marks of a drawing.
#[derive(Drop)]
pub enum Marks<'a> {
    Nothing,
    /// A truth value for each step.
    Kept(&'a [bool]),
    /// The steps of a chain, and each pair of consecutive ones.
    Chain {
        steps: HashSet<u32>,
        links: HashSet<(u32, u32)>,
    },
}

fn mark_if(mark: Mark, marked: bool) -> Mark
    ensures { result ≡ mark_if mark marked }
{
    if marked { mark } else { Mark::Plain }
}

/// Whether the truth value of a step is true.
fn is_in(marks: &[bool], step: u32) -> bool
    ensures { result ≡ member marks.now step }
{
    (step as usize) < marks.len() && marks[step as usize]
}

/// The steps of a chain.
fn steps_of(alloc: Global, chain: &[u16]) -> Result<HashSet<u32>, AllocError>
    ensures { IfOk result
        (λ steps. (s : ℕ) → contains nat_eq steps s ≡ list_any (λ x. s == x) chain.now) }
{
    let mut steps = HashSet::new(alloc);
    for step in chain {
        steps.insert(*step as u32)?;
    }
    Ok(steps)
}

/// The pairs of consecutive steps of a chain.
fn links_of(alloc: Global, chain: &[u16]) -> Result<HashSet<(u32, u32)>, AllocError>
    ensures { IfOk result
        (λ links. (s o : ℕ)
        → contains (λ x y. x.0 == y.0 && x.1 == y.1) links (s, o) ≡ along chain.now s o) }
{
    let mut links = HashSet::new(alloc);
    for place in 0..chain.len().saturating_sub(1) {
        links.insert((chain[place] as u32, chain[place + 1] as u32))?;
    }
    Ok(links)
}

/// Whether the links have this pair of consecutive steps.
fn is_linked(links: &HashSet<(u32, u32)>, step: u32, on: u32) -> bool
    ensures { result ≡ contains (λ x y. x.0 == y.0 && x.1 == y.1) links.now (step, on) }
{
    let link = (step, on);
    links.contains(&link)
}

impl<'a> Marks<'a> {
    /// The marks of an answer.
    pub fn of(alloc: Global, answer: Option<&'a Answer>) -> Result<Marks<'a>, AllocError>
        ensures { IfOk result (AreMarksOf (option_map (λ a. a.now) answer.entry)) }
    {
        match answer {
            None => Ok(Marks::Nothing),
            Some(Answer::Plan(plan)) => Ok(Marks::Kept(plan.kept.as_slice())),
            Some(Answer::Blocked(chain)) => Ok(Marks::Chain {
                steps: steps_of(alloc, chain.as_slice())?,
                links: links_of(alloc, chain.as_slice())?,
            }),
        }
    }

    /// The mark of a step.
    pub fn of_step(&self, step: u32) -> Mark
        ensures { result ≡ mark_in self.now step }
    {
        match self {
            Marks::Nothing => Mark::Plain,
            Marks::Kept(marks) => mark_if(Mark::Kept, is_in(marks, step)),
            Marks::Chain { steps, .. } => mark_if(Mark::Chained, steps.contains(&step)),
        }
    }

    /// The mark of a need.
    pub fn of_need(&self, need: Need) -> Mark
        ensures { result ≡ need_mark_in self.now need }
    {
        match self {
            Marks::Nothing => Mark::Plain,
            Marks::Kept(marks) => {
                mark_if(Mark::Kept, is_in(marks, need.step) && is_in(marks, need.on))
            }
            Marks::Chain { links, .. } => {
                mark_if(Mark::Chained, is_linked(links, need.step, need.on))
            }
        }
    }
}
