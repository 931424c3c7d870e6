//! Places: what they hold, and the uses of constraints and the cascades there and inside them.
ghost use Rattle.std.specs.Prelude.{◌≡◌, ◌∷◌, ◌++◌, [], IfOk, map, option_map, option_and_then, codes};
ghost use Rattle.serde_json.specs.Find.{get};
ghost use Rattle.serde_json.specs.View.{view as json_view};
ghost use Rattle.fv_datum.specs.Forms.{map2};
ghost use Rattle.fv_datum.specs.Lookup.{at_name};
ghost use Rattle.fv_extract.specs.Views.{step_view};
ghost use Rattle.fv_bundle.specs.Types.{type_use_view};
ghost use Rattle.fv_declare_draft.specs.DraftViews.{use_view, placed_use_view, cascade_view, placed_cascade_view, held_view};
ghost use Rattle.fv_declare_draft.specs.Gathering.{gathered, inside};
ghost use Rattle.fv_declare_draft.specs.Places.{plain_kinds, place_of as spec_place, held_of as spec_held, reference_of as spec_reference, plain, list as spec_list, optional as spec_optional, a_map, use_there, cascade_there};
ghost use Rattle.fv_declare_draft.specs.Uses.{uses_of as spec_uses};

use crate::cascades::cascade_of;
use crate::draft::{CascadeDraft, PlacedCascade, PlacedUse, UseDraft};
use crate::uses::uses_of;
use fv_bundle::TypeUse;
use fv_datum::{Kind, has_only, text_at};
use fv_extract::Step;
use serde_json::Value;
use std::alloc::{AllocError, Global};

/// What a place holds, and the uses and cascades there and inside it.
#[derive(Drop)]
pub(crate) struct Held<'a> {
    pub(crate) type_use: TypeUse,
    pub(crate) uses: Vec<PlacedUse<'a>>,
    pub(crate) cascades: Vec<PlacedCascade<'a>>,
}

/// What a field of plain data holds, by the word for it.
pub fn plain_use(name: &str) -> Option<TypeUse>
    ensures { option_map type_use_view result ≡ at_name name.now plain_kinds }
{
    match name {
        "text" => Some(TypeUse::Text),
        "integer" => Some(TypeUse::Integer),
        "decimal" => Some(TypeUse::Decimal),
        "boolean" => Some(TypeUse::Boolean),
        "date" => Some(TypeUse::Date),
        "instant" => Some(TypeUse::Instant),
        _ => None,
    }
}

/// The references that the member `ref` says.
fn reference_of(alloc: Global, value: &Value) -> Result<Option<TypeUse>, AllocError>
    ensures { IfOk result (λ o. option_map type_use_view o ≡ spec_reference (json_view value.now)) }
{
    match text_at(value, "ref") {
        None => Ok(None),
        Some(target) => Ok(Some(TypeUse::Ref(String::from_str(alloc, target)?))),
    }
}

/// What holds no other data.
fn alone<'a>(alloc: Global, type_use: Option<TypeUse>) -> Option<Held<'a>>
    ensures { (steps : _) → option_map held_view result ≡ option_map (inside steps) (option_map plain (option_map type_use_view type_use)) }
{
    let type_use = type_use?;
    Some(Held {
        type_use,
        uses: Vec::new(alloc),
        cascades: Vec::new(alloc),
    })
}

/// One step further than these.
fn further(alloc: Global, steps: &[Step], step: Step) -> Result<Vec<Step>, AllocError>
    ensures { IfOk result (λ v. map step_view v.items ≡ map step_view steps.now ++ step_view step ∷ []) }
{
    let mut longer = Vec::with_capacity(alloc, steps.len() + 1)?;
    longer.extend_from_slice(steps)?;
    longer.push(step)?;
    Ok(longer)
}

/// The uses at one place, in front of those inside it.
fn uses_before<'a>(
    alloc: Global,
    steps: &[Step],
    kind: Kind,
    drafts: Vec<UseDraft<'a>>,
    inside: Vec<PlacedUse<'a>>,
) -> Result<Vec<PlacedUse<'a>>, AllocError>
    ensures { IfOk result (λ v. map placed_use_view v.items
        ≡ map (use_there (map step_view steps.now) kind) (map use_view drafts.entry.items) ++ map placed_use_view inside.entry.items) }
{
    let mut inside = inside;
    let mut uses = Vec::with_capacity(alloc, drafts.len() + inside.len())?;
    for draft in drafts {
        let mut own = Vec::with_capacity(alloc, steps.len())?;
        own.extend_from_slice(steps)?;
        uses.push(PlacedUse {
            steps: own,
            kind,
            draft,
        })?;
    }
    uses.append(&mut inside)?;
    Ok(uses)
}

/// The cascade at one place, in front of those inside it.
fn cascades_before<'a>(
    alloc: Global,
    steps: &[Step],
    kind: Kind,
    cascade: CascadeDraft<'a>,
    inside: Vec<PlacedCascade<'a>>,
) -> Result<Vec<PlacedCascade<'a>>, AllocError>
    ensures { IfOk result (λ v. map placed_cascade_view v.items
        ≡ cascade_there (map step_view steps.now) kind (cascade_view cascade.entry) ∷ map placed_cascade_view inside.entry.items) }
{
    let mut inside = inside;
    let mut own = Vec::with_capacity(alloc, steps.len())?;
    own.extend_from_slice(steps)?;
    let mut cascades = Vec::with_capacity(alloc, inside.len() + 1)?;
    cascades.push(PlacedCascade {
        steps: own,
        kind,
        cascade,
    })?;
    cascades.append(&mut inside)?;
    Ok(cascades)
}

/// `{"type":T,"constraints":[USE],"valid":BOOL,"convert":{GROUP:GROUP}}`, only `type` is required.
/// The steps lead to the place.
#[cycle(place)]
#[tactic(auto, using(crate::proofs::PlaceMembers::place_of_members))]
pub(crate) fn place_of<'a>(
    alloc: Global,
    steps: &[Step],
    value: &'a Value,
) -> Result<Option<Held<'a>>, AllocError>
    ensures { IfOk result (λ o. option_map held_view o ≡ option_map (gathered (map step_view steps.now)) (spec_place (json_view value.now))) }
{
    if !has_only(value, &["type", "constraints", "valid", "convert"]) {
        return Ok(None);
    }
    let Some(drafts) = uses_of(alloc, value.get("constraints"))? else {
        return Ok(None);
    };
    let Some(cascade) = cascade_of(alloc, value)? else {
        return Ok(None);
    };
    let Some(told) = value.get("type") else {
        return Ok(None);
    };
    let Some(
        Held {
            type_use,
            uses,
            cascades,
        },
    ) = held_of(alloc, steps, told)?
    else {
        return Ok(None);
    };
    let uses = uses_before(alloc, steps, type_use.kind(), drafts, uses)?;
    let cascades = cascades_before(alloc, steps, type_use.kind(), cascade, cascades)?;
    Ok(Some(Held {
        type_use,
        uses,
        cascades,
    }))
}

/// The place that a member is, one step further than these.
#[cycle(place)]
fn place_in<'a>(
    alloc: Global,
    steps: &[Step],
    step: Step,
    name: &str,
    value: &'a Value,
) -> Result<Option<Held<'a>>, AllocError>
    ensures { IfOk result (λ o. option_map held_view o
        ≡ option_map (gathered (map step_view steps.now ++ step_view step ∷ [])) (option_and_then spec_place (get name.now (json_view value.now)))) }
{
    let Some(inner) = value.get(name) else {
        return Ok(None);
    };
    place_of(alloc, &further(alloc, steps, step)?, inner)
}

/// Lists of what their elements' place holds.
#[cycle(place)]
fn list_of<'a>(
    alloc: Global,
    steps: &[Step],
    value: &'a Value,
) -> Result<Option<Held<'a>>, AllocError>
    ensures { IfOk result (λ o. option_map held_view o ≡ option_map (inside (map step_view steps.now))
        (option_map spec_list (option_and_then spec_place (get (codes "list") (json_view value.now))))) }
{
    match place_in(alloc, steps, Step::Element, "list", value)? {
        None => Ok(None),
        Some(
            Held {
                type_use,
                uses,
                cascades,
            },
        ) => Ok(Some(Held {
            type_use: TypeUse::List(Box::new(alloc, type_use)?),
            uses,
            cascades,
        })),
    }
}

/// Optionals of what their content's place holds.
#[cycle(place)]
fn optional_of<'a>(
    alloc: Global,
    steps: &[Step],
    value: &'a Value,
) -> Result<Option<Held<'a>>, AllocError>
    ensures { IfOk result (λ o. option_map held_view o ≡ option_map (inside (map step_view steps.now))
        (option_map spec_optional (option_and_then spec_place (get (codes "optional") (json_view value.now))))) }
{
    match place_in(alloc, steps, Step::Content, "optional", value)? {
        None => Ok(None),
        Some(
            Held {
                type_use,
                uses,
                cascades,
            },
        ) => Ok(Some(Held {
            type_use: TypeUse::Optional(Box::new(alloc, type_use)?),
            uses,
            cascades,
        })),
    }
}

/// Maps of what their values' place holds. The uses at the keys come before those of the values.
#[cycle(place)]
fn map_of<'a>(
    alloc: Global,
    steps: &[Step],
    value: &'a Value,
) -> Result<Option<Held<'a>>, AllocError>
    ensures { IfOk result (λ o. option_map held_view o ≡ option_map (inside (map step_view steps.now))
        (map2 a_map (spec_uses (codes "keys") (json_view value.now)) (option_and_then spec_place (get (codes "map") (json_view value.now))))) }
{
    let Some(keys) = uses_of(alloc, value.get("keys"))? else {
        return Ok(None);
    };
    match place_in(alloc, steps, Step::Value, "map", value)? {
        None => Ok(None),
        Some(
            Held {
                type_use,
                uses,
                cascades,
            },
        ) => {
            let at_keys = further(alloc, steps, Step::Key)?;
            Ok(Some(Held {
                type_use: TypeUse::Map(Box::new(alloc, type_use)?),
                uses: uses_before(alloc, &at_keys, Kind::Text, keys, uses)?,
                cascades,
            }))
        }
    }
}

/// What a place holds: a plain kind by its name, `{"ref":TYPE}`, `{"list":PLACE}`, `{"optional":PLACE}`
/// or `{"map":PLACE,"keys":[USE]}`, `keys` may be missing.
#[cycle(place)]
#[tactic(auto, using(crate::proofs::PlaceMembers::held_of_members))]
fn held_of<'a>(
    alloc: Global,
    steps: &[Step],
    value: &'a Value,
) -> Result<Option<Held<'a>>, AllocError>
    ensures { IfOk result (λ o. option_map held_view o ≡ option_map (inside (map step_view steps.now)) (spec_held (json_view value.now))) }
{
    if let Some(name) = value.as_str() {
        return Ok(alone(alloc, plain_use(name)));
    }
    if has_only(value, &["ref"]) {
        return Ok(alone(alloc, reference_of(alloc, value)?));
    }
    if has_only(value, &["list"]) {
        return list_of(alloc, steps, value);
    }
    if has_only(value, &["optional"]) {
        return optional_of(alloc, steps, value);
    }
    if has_only(value, &["map", "keys"]) {
        return map_of(alloc, steps, value);
    }
    Ok(None)
}
