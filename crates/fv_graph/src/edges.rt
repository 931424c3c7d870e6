//! Whether lists of successors are a graph.
#![tactic(auto)]

ghost use Rattle.std.specs.Prelude.{All, ◌<◌, ◌↔◌, IsTrue};
ghost use Rattle.fv_graph.specs.Graph.{AreWithin};

/// Whether all these numbers are below `count`.
fn are_below(nodes: &[usize], count: usize) -> bool
    ensures { IsTrue result ↔ All (λ j. j < count) nodes.now }
{
    nodes.iter().all(|node| *node < count)
}

/// Whether every edge leads to a node of the graph.
pub fn are_within(edges: &[Vec<usize>]) -> bool
    ensures { IsTrue result ↔ AreWithin edges.now }
{
    edges.iter().all(|nodes| are_below(nodes, edges.len()))
}
