//! The marks of a breadth-first search: the depth of each node, and the residual arc by which it was found.
ghost use Rattle.std.specs.Prelude.{◌≡◌, ◌==◌, ◌<◌, ◌↔◌, ℕ, List, Option, IfOk, IsTrue, None, Some, is_some, length, map, not, replicate, slice_set};
ghost use Rattle.saga_flow.specs.Marks.{Mark, IsDepth, IsJustAbove, by_of, depth_at, far_in, mark_at, marks_of, no_depth};

use crate::residual_arcs::ResidualArc;
use std::alloc::{AllocError, Global};
use std::marker::Model;

/// The value for the depth of a node without a mark.
const NO_DEPTH: u32 = u32::MAX;

/// The mark of each node, in two flat lists, because a search reads the depth of the head of each arc.
///
/// At the start of a search the depth is 0, and the residual arc has no meaning.
#[derive(Drop)]
pub struct Marks {
    depths: Vec<u32>,
    by: Vec<ResidualArc>,
}

impl Model for Marks {
    ghost Value = { List (Option Mark) };

    ghost view = { λ m. marks_of m.depths.items m.by.items };

    ghost invariant = { λ m. length m.depths.items ≡ length m.by.items };
}

impl Marks {
    /// The marks of a search that has marked no node.
    pub fn none(alloc: Global, nodes: usize) -> Result<Marks, AllocError>
        ensures { IfOk result (λ marks. marks ≡ replicate nodes None) }
    {
        let no_arc = ResidualArc {
            arc: 0,
            forward: false,
        };
        Ok(Marks {
            depths: vec![in alloc; NO_DEPTH; nodes]?,
            by: vec![in alloc; no_arc; nodes]?,
        })
    }

    /// Marks the start node of a search.
    pub fn begin(&mut self, node: usize)
        requires { node < length self.old }
        ensures { self.new ≡ slice_set self.old node (Some (record { depth = 0; by = None })) }
    {
        self.depths[node] = 0;
    }

    /// Marks a node with this depth and the residual arc by which it was found.
    pub fn set(&mut self, node: usize, depth: u32, by: ResidualArc)
        requires node { node < length self.old }
        requires below { 0 < depth }
        requires depth { depth < no_depth }
        ensures { self.new
            ≡ slice_set self.old node (Some (record { depth = depth; by = Some by })) }
    {
        self.depths[node] = depth;
        self.by[node] = by;
    }

    /// The stored depth of a node.
    #[inline]
    fn read(&self, node: usize) -> u32
        requires { node < length self.now }
        ensures { IsDepth (mark_at self.now node) result }
    {
        self.depths[node]
    }

    /// Whether a node has a mark.
    #[inline]
    pub fn is_marked(&self, node: usize) -> bool
        requires { node < length self.now }
        ensures { result ≡ is_some (mark_at self.now node) }
    {
        self.read(node) != NO_DEPTH
    }

    /// The depth of a node. It is 0 if the node has no mark.
    pub fn depth(&self, node: usize) -> u32
        requires { node < length self.now }
        ensures { result ≡ depth_at self.now node }
    {
        let depth = self.read(node);
        if depth == NO_DEPTH { 0 } else { depth }
    }

    /// The residual arc by which a search reached a node. It is `None` for the start node.
    pub fn by(&self, node: usize) -> Option<ResidualArc>
        requires { node < length self.now }
        ensures { result ≡ by_of (mark_at self.now node) }
    {
        let depth = self.depths[node];
        if depth == 0 || depth == NO_DEPTH {
            None
        } else {
            Some(self.by[node])
        }
    }

    /// The distance of a node from the start of the search. It is the number of nodes if the node has no mark.
    pub fn far(&self, node: usize) -> usize
        requires { node < length self.now }
        ensures { result ≡ far_in self.now node }
    {
        let depth = self.read(node);
        if depth == NO_DEPTH {
            self.depths.len()
        } else {
            depth as usize
        }
    }

    /// Which nodes have a mark.
    pub fn all(&self, alloc: Global) -> Result<Vec<bool>, AllocError>
        ensures { IfOk result (λ r. r.items ≡ map is_some self.now) }
    {
        are_marks(alloc, self.depths.as_slice())
    }

    /// Whether a node has a mark with a distance one less than `far`.
    #[inline]
    pub fn is_nearer(&self, node: usize, far: usize) -> bool
        requires { node < length self.now }
        ensures { IsTrue result ↔ IsJustAbove self.now node far }
    {
        let depth = self.read(node);
        depth != NO_DEPTH && depth as usize + 1 == far
    }
}

/// Which depths are depths of marks.
fn are_marks(alloc: Global, depths: &[u32]) -> Result<Vec<bool>, AllocError>
    ensures { IfOk result (λ r. r.items ≡ map (λ d. not (d == no_depth)) depths.now) }
{
    depths.iter().map(|depth| *depth != NO_DEPTH).collect(alloc)
}
