ghost use Rattle.std.specs.Prelude.{◌≡◌, map, IfOk, MatchOption};
ghost use Rattle.fv_constraint.specs.Composed.{ComposesItself};
ghost use Rattle.fv_constraint.specs.Whereabouts.{IsCompositionRing};
ghost use Rattle.fv_declare_definition.specs.DefinitionViews.{definition_entry};

use crate::numbers::{Numbers, edges_of};
use fv_declare_definition::Definition;
use fv_ring::ring;
use std::alloc::{AllocError, Global};
use std::collections::BTreeMap;

/// The numbers of definitions of which each is composed of the next, and the last of the first;
/// `None` where no constraint is composed of itself.
pub fn composition_ring(
    alloc: Global,
    definitions: &BTreeMap<String, Definition>,
) -> Result<Option<Vec<usize>>, AllocError>
    ensures { let ds = map definition_entry definitions.now.entries in IfOk result (λ found.
        MatchOption found (ComposesItself ds → ⊥) (λ r. ComposesItself ds × IsCompositionRing ds r.items)) }
{
    let numbers = Numbers::new(alloc, definitions)?;
    let edges = edges_of(alloc, &numbers)?;
    ring(alloc, &edges)
}
