//! What can be wrong with names, and the types where nothing is.
ghost use Rattle.std.specs.Prelude.{◌≡◌, ◌≢◌, ◌∷◌, [], Some, None, IfOk, IfErr, map, is_some};
ghost use Rattle.fv_datum.specs.Lookup.{at_name};
ghost use Rattle.fv_datum.specs.Outcomes.{first};
ghost use Rattle.fv_declare_definition.specs.DefinitionViews.{definition_entry};
ghost use Rattle.fv_declare_draft.specs.AllUses.{uses_in};
ghost use Rattle.fv_declare_draft.specs.DraftViews.{form_view, draft_view};
ghost use Rattle.fv_declare_draft.specs.UseViews.{use_view};
ghost use Rattle.fv_first.specs.First.{first_of};
ghost use Rattle.fv_bundle.specs.Types.{declared_view};
ghost use Rattle.fv_declare_judging.specs.Judging.{name_conditions};
ghost use Rattle.fv_declare_judging.specs.NamePlaces as place;
ghost use Rattle.fv_declare_judging.specs.Parts.{AreTypesOf};
ghost use Rattle.fv_declare_judging.specs.Whereabouts.{IsNameAt};

use crate::fault::DeclFault;
use crate::naming::bad_name;
use crate::placed::{At, NamesAt, PlacedFault};
use crate::types::types_for;
use fv_bundle::{Fields, Types, TypesAt, TypesFault};
use fv_constraint::{meant_by, unknown_composing};
use fv_declare_definition::Definition;
use fv_declare_draft::{Draft, FormDraft, Use};
use indexmap::IndexMap;
use std::alloc::Global;
use std::collections::BTreeMap;

/// The first use of a constraint that is neither built in nor declared.
#[tactic(auto, using(crate::proofs::FirstTurns::use_turn))]
fn unknown_use(definitions: &BTreeMap<String, Definition>, uses: &[Use]) -> Option<At>
    ensures { result ≡ place.unknown_use (map definition_entry definitions.now.entries) (map use_view uses.now) }
{
    for (number, given) in uses.iter().enumerate() {
        if meant_by(definitions, given.constraint).is_none() {
            return Some(At::Names(NamesAt::Use(number)));
        }
    }
    None
}

/// The first constraint, neither built in nor declared, of which one is composed.
fn unknown_part(definitions: &BTreeMap<String, Definition>) -> Option<At>
    ensures { result ≡ place.unknown_part (map definition_entry definitions.now.entries) }
{
    match unknown_composing(definitions) {
        None => None,
        Some(at) => Some(At::Constraints(at)),
    }
}

/// Whether a type has the name.
fn is_declared(declared: &IndexMap<String, Fields>, name: &str) -> bool
    ensures { result ≡ is_some (at_name name.now (declared_view declared.now)) }
{
    declared.contains_key(name)
}

/// The first form whose root is none of the types.
#[tactic(auto, using(crate::proofs::FirstTurns::form_turn))]
fn unknown_root(declared: &IndexMap<String, Fields>, forms: &[FormDraft]) -> Option<At>
    ensures { result ≡ place.unknown_root (declared_view declared.now) (map form_view forms.now) }
{
    for (number, form) in forms.iter().enumerate() {
        if !is_declared(declared, form.root) {
            return Some(At::Names(NamesAt::Root(number)));
        }
    }
    None
}

/// The first name that is unknown, but for those that fields refer to.
fn unknown_outside(
    declared: &IndexMap<String, Fields>,
    definitions: &BTreeMap<String, Definition>,
    uses: &[Use],
    forms: &[FormDraft],
) -> Option<At>
    ensures { let ds = map definition_entry definitions.now.entries in result ≡ first_of (place.unknown_use ds (map use_view uses.now)
        ∷ place.unknown_part ds ∷ place.unknown_root (declared_view declared.now) (map form_view forms.now) ∷ []) }
{
    if let Some(at) = unknown_use(definitions, uses) {
        return Some(at);
    }
    if let Some(at) = unknown_part(definitions) {
        return Some(at);
    }
    unknown_root(declared, forms)
}

/// The types, unless a declared name is bad or a name is unknown; or which of their limits is passed: there
/// are more than 256 of them, a type has more than 256 fields, or more than four containers stand one in another.
pub(crate) fn known_types(
    alloc: Global,
    draft: &Draft,
    uses: &[Use],
) -> Result<Result<Types, TypesAt>, PlacedFault>
    requires { map use_view uses.now ≡ uses_in (draft_view draft.now).types }
    ensures named { IfOk result (λ _. first (name_conditions (draft_view draft.now)) ≡ None) }
    ensures taken { IfOk result (λ types. AreTypesOf (draft_view draft.now) types) }
    ensures refused { IfErr result (λ p. p.fault ≢ DeclFault.Memory → first (name_conditions (draft_view draft.now)) ≡ Some p.fault) }
    ensures placed { IfErr result (λ p. p.fault ≢ DeclFault.Memory → IsNameAt (draft_view draft.now) p.fault p.at) }
{
    if let Some(at) = bad_name(draft) {
        return Err(PlacedFault {
            fault: DeclFault::BadName,
            at: Some(At::Names(at)),
        });
    }
    let declared = types_for(alloc, &draft.types)?;
    if let Some(at) = unknown_outside(&declared, &draft.definitions, uses, &draft.forms) {
        return Err(PlacedFault {
            fault: DeclFault::UnknownName,
            at: Some(at),
        });
    }
    let placed = match Types::build_placed(alloc, declared) {
        Ok(types) => return Ok(Ok(types)),
        Err(placed) => placed,
    };
    match (placed.fault, placed.at) {
        (TypesFault::TooLarge, Some(at)) => Ok(Err(at)),
        (TypesFault::UnknownType, Some(at)) => Err(PlacedFault {
            fault: DeclFault::UnknownName,
            at: Some(At::Names(NamesAt::Reference(at))),
        }),
        // Want of memory alone has no place.
        _ => Err(PlacedFault {
            fault: DeclFault::Memory,
            at: None,
        }),
    }
}
