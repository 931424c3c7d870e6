//! Which nodes of a graph lead to marked ones.
ghost use Rattle.std.specs.Prelude.{◌≡◌, ◌<◌, ◌↔◌, ℕ, true, length, IfOk, slice_index_or};
ghost use Rattle.fv_graph.specs.Graph.{next_of};
ghost use Rattle.fv_declare_schema.specs.Marked.{flag_of, ReachesMarked};

use fv_graph::Combine;
use std::alloc::{AllocError, Global};

/// Tells of each node of a graph whether it is a marked one or leads to one.
#[derive(Drop)]
pub(crate) struct Marking<'a> {
    pub(crate) edges: &'a [Vec<usize>],
    pub(crate) marked: &'a [bool],
    ghost each: { length marked.now ≡ length edges.now },
}

impl Combine for Marking<'_> {
    type Value = bool;

    ghost next = { λ s. next_of s.edges.now };

    ghost count = { λ s. length s.edges.now };

    ghost is_right = { λ s i made. (made ≡ true) ↔ ReachesMarked (next_of s.edges.now) s.marked.now i };

    fn blank(&self, _alloc: Global) -> Result<bool, AllocError> {
        Ok(false)
    }

    fn combine(&self, _alloc: Global, node: usize, table: &[bool]) -> Result<bool, AllocError> {
        if self.marked[node] {
            return Ok(true);
        }
        for next in &self.edges[node] {
            if *at(table, *next) {
                return Ok(true);
            }
        }
        Ok(false)
    }
}

/// An entry of a table that has one.
pub(crate) fn at<T>(table: &[T], index: usize) -> &T
    requires { index < length table.now }
    ensures { result.now ≡ slice_index_or table.now index result.now }
{
    &table[index]
}

/// Marks for so many nodes, of which one alone is marked.
pub(crate) fn only(alloc: Global, count: usize, node: usize) -> Result<Vec<bool>, AllocError>
    requires { node < count }
    ensures len { IfOk result (λ marked. length marked.items ≡ count) }
    ensures one { IfOk result (λ marked. (k : ℕ) → (flag_of marked.items k ≡ true) ↔ (k ≡ node)) }
{
    let mut marked = vec![in alloc; false; count]?;
    marked[node] = true;
    Ok(marked)
}
