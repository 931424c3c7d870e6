//! The path of a part of a field.
ghost use Rattle.std.specs.Prelude.{◌≡◌, [], ◌∷◌, ◌++◌, true, map, IfOk, OnOk};
ghost use Rattle.fv_datum.specs.Name.{names};
ghost use Rattle.fv_extract.specs.Views.{part_view, step_view};
ghost use Rattle.fv_path.specs.Nodes.{field, index, key as key_node, is_node};
ghost use Rattle.fv_path.specs.Paths.{IsPath};
ghost use Rattle.fv_path.specs.Views.{node_view};
ghost use Rattle.fv_local.specs.Loci.{leads};
ghost use Rattle.fv_local.specs.Paths.{nodes_of};

use fv_datum::Name;
use fv_extract::{Part, Step};
use fv_path::{Node, Path};
use std::alloc::{AllocError, Global};

/// The node of a key.
fn key_node(alloc: Global, key: &str) -> Result<Node, AllocError>
    ensures is { IfOk result (λ n. node_view n ≡ key_node key.now) }
    ensures sound { IfOk result (λ n. is_node (node_view n) ≡ true) }
{
    Ok(Node::Key(String::from_str(alloc, key)?))
}

/// Adds an index or a key, and the node that names the part there.
fn push_part(path: &mut Path, place: Node, part: Node) -> Result<(), AllocError>
    requires { IsPath (path.old ++ node_view place ∷ node_view part ∷ []) }
    ensures added { OnOk result (path.new ≡ path.old ++ node_view place ∷ node_view part ∷ []) }
    ensures path { IsPath path.new }
{
    path.push(place)?;
    path.push(part)
}

/// Adds the nodes of a part that a step leads to: the step isn't one to a content.
fn push_step(alloc: Global, path: &mut Path, step: Step, part: Part) -> Result<(), AllocError>
    requires room { IsPath (path.old ++ index 0 ∷ []) }
    requires leads { leads (step_view step ∷ []) (part_view part ∷ []) ≡ true }
    ensures added { OnOk result (path.new ≡ path.old ++ nodes_of (step_view step ∷ []) (part_view part.entry ∷ [])) }
    ensures path { IsPath path.new }
{
    match (step, part) {
        (Step::Element, Part::Index(index)) => {
            push_part(path, Node::Index(index as u32), Node::ListElement)
        }
        (Step::Key, Part::Key(key)) => push_part(path, key_node(alloc, key)?, Node::MapKey),
        (Step::Value, Part::Key(key)) => push_part(path, key_node(alloc, key)?, Node::MapValue),
        _ => Ok(()),
    }
}

/// Adds the nodes from a field to a part of its datum, by the steps to it and its locus.
fn push_nodes(
    alloc: Global,
    path: &mut Path,
    steps: &[Step],
    locus: &[Part],
) -> Result<(), AllocError>
    requires room { IsPath (path.old ++ index 0 ∷ []) }
    requires leads { leads (map step_view steps.now) (map part_view locus.now) ≡ true }
    ensures added { OnOk result (path.new ≡ path.old ++ nodes_of (map step_view steps.now) (map part_view locus.now)) }
    ensures path { IsPath path.new }
{
    let mut at = 0;
    for step in steps {
        if matches!(step, Step::Content) {
            continue;
        }
        let Some(part) = locus.get(at) else {
            return Ok(());
        };
        push_step(alloc, path, *step, *part)?;
        at += 1;
    }
    Ok(())
}

/// Adds the nodes of a part of the field of that name, by the steps to it and its locus. Where memory
/// is refused some of them may have been added.
pub fn push_spot(
    alloc: Global,
    path: &mut Path,
    name: &str,
    steps: &[Step],
    locus: &[Part],
) -> Result<(), AllocError>
    requires named { names name.now ≡ true }
    requires leads { leads (map step_view steps.now) (map part_view locus.now) ≡ true }
    requires room { IsPath (path.old ++ field name.now ∷ []) }
    ensures ok { OnOk result (path.new ≡ path.old ++ field name.now ∷ nodes_of (map step_view steps.now) (map part_view locus.now)) }
    ensures path { IsPath path.new }
{
    path.push(Node::Field(Name::new(String::from_str(alloc, name)?)))?;
    push_nodes(alloc, path, steps, locus)
}
