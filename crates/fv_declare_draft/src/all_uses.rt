//! The uses of constraints at their places, in the order of their numbers.
ghost use Rattle.std.specs.Prelude.{◌≡◌, ◌++◌, IfOk, OnOk, map};
ghost use Rattle.std.specs.List.{flat_map, enumerate_from};
ghost use Rattle.fv_declare_draft.specs.DraftViews.{use_view as draft_use_view, placed_use_view, field_view, type_view};
ghost use Rattle.fv_declare_schema.specs.Places.{whole};
ghost use Rattle.fv_declare_draft.specs.AllUses.{use_at, use_in, field_uses, type_uses, uses_in};
ghost use Rattle.fv_declare_draft.specs.UseViews.{use_view};

use crate::draft::{FieldDraft, PlacedUse, TypeDraft, UseDraft};
use fv_datum::Attrs;
use fv_declare_schema::Place;
use std::alloc::{AllocError, Global};

/// A use of a constraint at its place.
#[derive(Drop)]
pub struct Use<'a> {
    /// The type's number.
    pub type_index: usize,
    pub place: Place,
    /// The constraint's name.
    pub constraint: &'a str,
    /// The template of its message, if it has one of its own.
    pub message: Option<&'a str>,
    /// The attributes that are given.
    pub given: &'a Attrs,
    /// The names of its groups; none stand for `Default`.
    pub groups: &'a [&'a str],
}

/// Adds the uses at a type itself.
fn add_whole<'a>(
    uses: &mut Vec<Use<'a>>,
    type_index: usize,
    drafts: &'a [UseDraft<'a>],
) -> Result<(), AllocError>
    ensures { OnOk result (map use_view uses.new.items ≡ map use_view uses.old.items
        ++ map (use_at type_index whole) (map draft_use_view drafts.now)) }
{
    for draft in drafts {
        uses.push(Use {
            type_index,
            place: Place::Whole,
            constraint: draft.constraint,
            message: draft.message,
            given: &draft.with,
            groups: &draft.groups,
        })?;
    }
    Ok(())
}

/// A use at a place in the field of that number.
fn use_in<'a>(
    type_index: usize,
    number: usize,
    placed: &'a PlacedUse<'a>,
) -> Result<Use<'a>, AllocError>
    ensures { IfOk result (λ u. use_view u ≡ use_in type_index number (placed_use_view placed.now)) }
{
    Ok(Use {
        type_index,
        place: Place::Field(number, placed.steps.clone()?, placed.kind),
        constraint: placed.draft.constraint,
        message: placed.draft.message,
        given: &placed.draft.with,
        groups: &placed.draft.groups,
    })
}

/// Adds the uses at a field and inside it.
fn add_field<'a>(
    uses: &mut Vec<Use<'a>>,
    type_index: usize,
    number: usize,
    drafts: &'a [PlacedUse<'a>],
) -> Result<(), AllocError>
    ensures { OnOk result (map use_view uses.new.items ≡ map use_view uses.old.items
        ++ map (use_in type_index number) (map placed_use_view drafts.now)) }
{
    for placed in drafts {
        uses.push(use_in(type_index, number, placed)?)?;
    }
    Ok(())
}

/// Adds the uses in a type's fields, in order.
fn add_fields<'a>(
    uses: &mut Vec<Use<'a>>,
    type_index: usize,
    fields: &'a [FieldDraft<'a>],
) -> Result<(), AllocError>
    ensures { OnOk result (map use_view uses.new.items ≡ map use_view uses.old.items
        ++ flat_map (field_uses type_index) (enumerate_from 0 (map field_view fields.now))) }
{
    for (number, field) in fields.iter().enumerate() {
        add_field(uses, type_index, number, &field.uses)?;
    }
    Ok(())
}

/// Adds the uses at a type and in its fields.
fn add_type<'a>(
    uses: &mut Vec<Use<'a>>,
    type_index: usize,
    declared: &'a TypeDraft<'a>,
) -> Result<(), AllocError>
    ensures { OnOk result (map use_view uses.new.items ≡ map use_view uses.old.items
        ++ type_uses (type_index, type_view declared.now)) }
{
    add_whole(uses, type_index, &declared.uses)?;
    add_fields(uses, type_index, &declared.fields)
}

/// The uses of constraints at the types and in their fields, in order.
pub fn uses_in<'a>(alloc: Global, types: &'a [TypeDraft<'a>]) -> Result<Vec<Use<'a>>, AllocError>
    ensures { IfOk result (λ v. map use_view v.items ≡ uses_in (map type_view types.now)) }
{
    let mut uses = Vec::new(alloc);
    for (index, declared) in types.iter().enumerate() {
        add_type(&mut uses, index, declared)?;
    }
    Ok(uses)
}
