//! A walk along all edges, in depth first.
#![tactic(auto)]

ghost use Rattle.std.specs.Prelude.{◌≡◌, ◌<◌, ◌↔◌, ◌++◌, ◌∷◌, [], length, set, if◌then◌else◌, IfOk, OnOk, IsTrue};
ghost use Rattle.fv_graph.specs.Graph.{next_of, AreWithin, IsRestOrder, Orders};
ghost use Rattle.fv_graph.specs.Search.{Searches, IsStep, StayMarked, IsMarked};
ghost use Rattle.fv_graph.specs.declared.search.Mark.TheVariants.{New, Done, Meets};

use std::alloc::{AllocError, Global};

/// How far a node is: not met yet, on the way, done with all that it leads to, or known to meet a
/// cycle.
#[derive(Clone, Copy)]
enum Mark {
    New,
    Open,
    Done,
    Meets,
}

fn is_new(mark: Mark) -> bool
    ensures { IsTrue result ↔ (mark ≡ New) }
{
    matches!(mark, Mark::New)
}

/// A node on the way, the first of its edges that was not taken yet, and whether one that was led to
/// a cycle.
#[derive(Clone, Copy)]
struct Frame {
    node: usize,
    next: usize,
    meets: bool,
}

/// Leaves the node of `frame`, all of whose edges were taken: it comes next in the order, unless it
/// meets a cycle.
fn leave(marks: &mut Vec<Mark>, order: &mut Vec<usize>, frame: Frame) -> Result<(), AllocError>
    requires { frame.node < length marks.old.items }
    ensures marks { marks.new.items ≡ set marks.old.items frame.node (if frame.meets then Meets else Done) }
    ensures order { OnOk result (order.new.items ≡ (if frame.meets then order.old.items else (order.old.items ++ frame.node ∷ []))) }
{
    if frame.meets {
        marks[frame.node] = Mark::Meets;
        return Ok(());
    }
    marks[frame.node] = Mark::Done;
    order.push(frame.node)?;
    Ok(())
}

/// Takes the next edge of `frame`, which was on top of the stack. An edge to a new node is taken
/// again when that node has been left.
fn advance(
    edges: &[Vec<usize>],
    marks: &mut Vec<Mark>,
    order: &mut Vec<usize>,
    stack: &mut Vec<Frame>,
    frame: Frame,
) -> Result<(), AllocError>
    requires within { AreWithin edges.now }
    requires searches { Searches edges.now marks.old.items order.old.items (stack.old.items ++ frame ∷ []) }
    ensures step { OnOk result (IsStep edges.now marks.old.items (stack.old.items ++ frame ∷ [])
        marks.new.items order.new.items stack.new.items) }
    ensures marked { OnOk result (StayMarked marks.old.items marks.new.items) }
{
    let successors = &edges[frame.node];
    if frame.next >= successors.len() {
        return leave(marks, order, frame);
    }
    let successor = successors[frame.next];
    match marks[successor] {
        Mark::New => {
            marks[successor] = Mark::Open;
            stack.push(frame)?;
            stack.push(Frame {
                node: successor,
                next: 0,
                meets: false,
            })?;
            Ok(())
        }
        Mark::Open | Mark::Meets => {
            stack.push(Frame {
                next: frame.next + 1,
                meets: true,
                ..frame
            })?;
            Ok(())
        }
        Mark::Done => {
            stack.push(Frame {
                next: frame.next + 1,
                ..frame
            })?;
            Ok(())
        }
    }
}

/// Goes along all edges from `node`, unless it was met before.
fn visit(
    alloc: Global,
    edges: &[Vec<usize>],
    marks: &mut Vec<Mark>,
    order: &mut Vec<usize>,
    node: usize,
) -> Result<(), AllocError>
    requires within { AreWithin edges.now }
    requires node { node < length edges.now }
    requires searches { Searches edges.now marks.old.items order.old.items [] }
    ensures searches { OnOk result (Searches edges.now marks.new.items order.new.items []) }
    ensures marked { OnOk result (StayMarked marks.old.items marks.new.items × IsMarked marks.new.items node) }
{
    if !is_new(marks[node]) {
        return Ok(());
    }
    marks[node] = Mark::Open;
    let mut stack = Vec::new(alloc);
    stack.push(Frame {
        node,
        next: 0,
        meets: false,
    })?;
    while let Some(frame) = stack.pop() {
        advance(edges, marks, order, &mut stack, frame)?;
    }
    Ok(())
}

/// The nodes of a graph that meet no cycle, each after all that its edges lead to. Each node has a
/// list of those that its edges lead to.
pub fn order_rest(alloc: Global, edges: &[Vec<usize>]) -> Result<Vec<usize>, AllocError>
    requires { AreWithin edges.now }
    ensures { IfOk result (λ order. IsRestOrder (next_of edges.now) (length edges.now) order.items) }
{
    let mut marks = vec![in alloc; Mark::New; edges.len()]?;
    let mut order = Vec::new(alloc);
    for node in 0..edges.len() {
        visit(alloc, edges, &mut marks, &mut order, node)?;
    }
    Ok(order)
}

/// The nodes of a graph, each after all that its edges lead to; `None` where some node leads to
/// itself. Each node has a list of those that its edges lead to.
pub fn order(alloc: Global, edges: &[Vec<usize>]) -> Result<Option<Vec<usize>>, AllocError>
    requires { AreWithin edges.now }
    ensures { IfOk result (λ found. Orders (next_of edges.now) (length edges.now) found) }
{
    let order = order_rest(alloc, edges)?;
    if order.len() < edges.len() {
        return Ok(None);
    }
    Ok(Some(order))
}
