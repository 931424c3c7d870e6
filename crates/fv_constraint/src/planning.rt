//! The constraints of a tree, each by what stands above it.
ghost use Rattle.std.specs.Prelude.{◌≡◌, None, IfOk, map, option_map, slice_get, string_bytes};
ghost use Rattle.fv_constraint.specs.PlannedViews.{planned_view};
ghost use Rattle.fv_declare_definition.specs.Definitions.{Definitions};
ghost use Rattle.fv_constraint.specs.Meanings.{meant_composing};
ghost use Rattle.fv_declare_definition.specs.DefinitionViews.{definition_entry};
ghost use Rattle.fv_constraint.specs.Numbered.{composing_at};

use crate::effect::handed;
use crate::meant::{Meant, meant_by};
use fv_datum::Attrs;
use fv_declare_definition::Definition;
use fv_graph::Hand;
use std::alloc::{AllocError, Global};
use std::collections::BTreeMap;

/// A constraint in a tree.
#[derive(Drop)]
pub struct Planned<'a> {
    pub constraint: &'a str,
    /// What its name stands for.
    pub meant: Meant<'a>,
    /// The template of its message, if it has one of its own.
    pub own: Option<&'a str>,
    /// The attributes that it is given.
    pub with: Attrs,
}

/// Hands attributes down along definitions.
#[derive(Drop)]
pub(crate) struct Handing<'a> {
    pub(crate) definitions: &'a BTreeMap<String, Definition>,
}

impl<'a> Hand for Handing<'a> {
    type Value = Planned<'a>;

    ghost use Rattle.std.specs.Prelude.{map, slice_get};
    ghost use Rattle.fv_constraint.specs.Composed as spec;
    ghost use Rattle.fv_constraint.specs.PlannedViews.{planned_view};
    ghost use Rattle.fv_constraint.specs.Meanings.{meant_composing};
    ghost use Rattle.fv_declare_definition.specs.DefinitionViews.{definition_entry};
    ghost use Rattle.fv_constraint.specs.Numbered.{composing_at};

    ghost Seen = { spec.Planned };

    ghost seen = { planned_view };

    ghost hands = { λ h node edge p. composing_at (map definition_entry h.definitions.now.entries) p
        (slice_get (meant_composing p.meant) edge) };

    fn hand(
        &self,
        alloc: Global,
        _node: usize,
        edge: usize,
        value: &Planned<'a>,
    ) -> Result<Planned<'a>, AllocError> {
        plan_below(alloc, self.definitions, value, edge)
    }
}

/// The text that there is.
fn text_of<'a>(text: &'a Option<String>) -> Option<&'a str>
    ensures { option_map (λ t. t.now) result ≡ option_map string_bytes text.now }
{
    match text {
        None => None,
        Some(text) => Some(text.as_str()),
    }
}

/// What is planned at an edge that isn't there: the constraint above, with no attributes.
fn nowhere<'a>(alloc: Global, above: &Planned<'a>) -> Planned<'a>
    ensures { (ds : Definitions) → planned_view result ≡ composing_at ds (planned_view above.now) None }
{
    Planned {
        constraint: above.constraint,
        meant: above.meant,
        own: None,
        with: Attrs::new(BTreeMap::new(alloc)),
    }
}

/// What stands below a constraint at a composing constraint, told by its place among them.
fn plan_below<'a>(
    alloc: Global,
    definitions: &'a BTreeMap<String, Definition>,
    above: &Planned<'a>,
    edge: usize,
) -> Result<Planned<'a>, AllocError>
    ensures { IfOk result (λ made. planned_view made ≡ composing_at (map definition_entry definitions.now.entries)
        (planned_view above.now) (slice_get (meant_composing (planned_view above.now).meant) edge)) }
{
    let Meant::Declared(definition) = above.meant else {
        return Ok(nowhere(alloc, above));
    };
    let Some(composing) = definition.composing.get(edge) else {
        return Ok(nowhere(alloc, above));
    };
    let name = composing.constraint.as_str();
    Ok(Planned {
        constraint: name,
        meant: meant_by(definitions, name).unwrap_or(above.meant),
        own: text_of(&composing.message),
        with: handed(alloc, composing, definition, &above.with)?,
    })
}
