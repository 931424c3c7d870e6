//! The tree that a node of a graph without cycles unfolds to, as a flat list in preorder.
#![tactic(auto)]

ghost use Rattle.std.specs.Prelude.{◌≡◌, ◌<◌, ◌++◌, ◌∷◌, [], ℕ, length, map, reverse, IfOk, OnOk};
ghost use Rattle.std.specs.List.{AllByRecursion};
ghost use Rattle.fv_graph.specs.Graph.{next_of, AreWithin, IsCyclic};
ghost use Rattle.fv_graph.specs.Tree.{listed, tree_of, shown};
ghost use Rattle.fv_graph.specs.Growing.{closed, IsStep};

use std::alloc::{AllocError, Global};

/// A node of a tree, the value that was handed down to it, and how many nodes stand below it.
#[derive(Drop)]
pub struct Spot<V> {
    pub node: usize,
    pub value: V,
    pub below: usize,
}

/// A spot whose tree is not listed whole, and the first of its edges that was not taken yet.
#[derive(Clone, Copy)]
struct Branch {
    at: usize,
    edge: usize,
}

/// What an edge hands on of the value that its node has.
pub trait Hand {
    type Value: Drop;

    /// What values are seen as.
    ghost Seen: { Type 0 };

    /// A value as it is seen.
    ghost seen: { Self.Value → Seen };

    /// What a node's edge, told by its place among the node's edges, hands on of a value.
    ghost hands: { Self → ℕ → ℕ → Seen → Seen };

    /// What the edge at place `edge` of `node` hands on of `value`.
    fn hand(
        &self,
        alloc: Global,
        node: usize,
        edge: usize,
        value: &Self::Value,
    ) -> Result<Self::Value, AllocError>
        ensures { IfOk result (λ made. seen made ≡ hands self.now node edge (seen value.now)) };
}

/// Counts what stands behind a spot, when its tree is listed whole.
fn close<V: Drop>(spots: &mut Vec<Spot<V>>, at: usize)
    requires { at < length spots.old.items }
    ensures { spots.new.items ≡ closed at spots.old.items }
{
    spots[at].below = spots.len() - at - 1;
}

/// Lists what the next edge of `branch` leads to; where no edge is left, the spot is closed.
fn grow<H: Hand>(
    alloc: Global,
    edges: &[Vec<usize>],
    hand: &H,
    spots: &mut Vec<Spot<H::Value>>,
    stack: &mut Vec<Branch>,
    branch: Branch,
) -> Result<(), AllocError>
    requires within { AreWithin edges.now }
    requires acyclic { IsCyclic (next_of edges.now) → ⊥ }
    requires nodes { AllByRecursion (λ s. s.node < length edges.now) spots.old.items }
    requires places { AllByRecursion (λ b. b.at < length spots.old.items) (stack.old.items ++ branch ∷ []) }
    ensures nodes { OnOk result (AllByRecursion (λ s. s.node < length edges.now) spots.new.items) }
    ensures places { OnOk result (AllByRecursion (λ b. b.at < length spots.new.items) stack.new.items) }
    ensures step { OnOk result (IsStep (H.hands hand.now) (next_of edges.now) (length edges.now)
        (map (shown H.seen) spots.old.items) (reverse (stack.old.items ++ branch ∷ []))
        (map (shown H.seen) spots.new.items) (reverse stack.new.items)) }
{
    let spot = &spots[branch.at];
    let successors = &edges[spot.node];
    if branch.edge >= successors.len() {
        close(spots, branch.at);
        return Ok(());
    }
    let node = successors[branch.edge];
    let value = hand.hand(alloc, spot.node, branch.edge, &spot.value)?;
    stack.push(Branch {
        at: branch.at,
        edge: branch.edge + 1,
    })?;
    stack.push(Branch {
        at: spots.len(),
        edge: 0,
    })?;
    spots.push(Spot {
        node,
        value,
        below: 0,
    })?;
    Ok(())
}

/// The tree that `root` unfolds to in a graph without cycles, in preorder: each node with the value
/// that is handed down to it, `value` to the root, and then what its edges lead to, in order. A node
/// that is met often is listed as often.
pub fn preorder<H: Hand>(
    alloc: Global,
    edges: &[Vec<usize>],
    hand: &H,
    root: usize,
    value: H::Value,
) -> Result<Vec<Spot<H::Value>>, AllocError>
    requires within { AreWithin edges.now }
    requires acyclic { IsCyclic (next_of edges.now) → ⊥ }
    requires root { root < length edges.now }
    ensures { IfOk result (λ spots. map (shown H.seen) spots.items
        ≡ listed (tree_of (H.hands hand.now) (next_of edges.now) (length edges.now) root (H.seen value))) }
{
    let mut spots = Vec::new(alloc);
    spots.push(Spot {
        node: root,
        value,
        below: 0,
    })?;
    let mut stack = Vec::new(alloc);
    stack.push(Branch { at: 0, edge: 0 })?;
    while let Some(branch) = stack.pop() {
        grow(alloc, edges, hand, &mut spots, &mut stack, branch)?;
    }
    Ok(spots)
}
