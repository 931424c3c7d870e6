ghost use Rattle.std.specs.Prelude.{◌≡◌, ◌<◌, ℕ, List, length, IfOk, MatchOption};
ghost use Rattle.fv_graph.specs.Graph.{next_of, AreWithin, IsIn};
ghost use Rattle.fv_ring.specs.Rings.{FindsRing, IsFlagged, AreFlagged};

use crate::way::ring_behind;
use fv_graph::order_rest;
use std::alloc::{AllocError, Global};

/// Which of so many nodes aren't among these.
fn others(alloc: Global, count: usize, nodes: &[usize]) -> Result<Vec<bool>, AllocError>
    requires { (i : ℕ) → IsIn nodes.now i → i < count }
    ensures { IfOk result (λ v. AreFlagged count nodes.now v.items) }
{
    let mut flags = vec![in alloc; true; count]?;
    for node in nodes {
        flags[*node] = false;
    }
    Ok(flags)
}

/// The number of the first that is flagged.
fn first_flagged(flags: &[bool]) -> Option<usize>
    ensures { MatchOption result ((i : ℕ) → IsFlagged flags.now i → ⊥) (λ i. IsFlagged flags.now i) }
{
    for (number, flag) in flags.iter().enumerate() {
        if *flag {
            return Some(number);
        }
    }
    None
}

/// Nodes of which each leads to the next, and the last to the first; `None` where no node leads to itself.
pub fn ring(alloc: Global, edges: &[Vec<usize>]) -> Result<Option<Vec<usize>>, AllocError>
    requires { AreWithin edges.now }
    ensures { (next : ℕ → List ℕ) → ((i : ℕ) → next_of edges.now i ≡ next i) → IfOk result (FindsRing next) }
{
    let order = order_rest(alloc, edges)?;
    let flags = others(alloc, edges.len(), &order)?;
    match first_flagged(&flags) {
        None => Ok(None),
        Some(start) => Ok(Some(ring_behind(alloc, edges, &flags, start)?)),
    }
}
