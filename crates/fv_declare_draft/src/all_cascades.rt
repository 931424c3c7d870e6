//! The cascades at their places, in order.
ghost use Rattle.std.specs.Prelude.{◌≡◌, ◌++◌, IfOk, OnOk, map};
ghost use Rattle.std.specs.List.{flat_map, enumerate_from};
ghost use Rattle.fv_declare_draft.specs.DraftViews.{placed_cascade_view, field_view, type_view};
ghost use Rattle.fv_declare_draft.specs.AllCascades.{cascade_in, field_cascades, type_cascades, cascades_in};
ghost use Rattle.fv_declare_draft.specs.UseViews.{cascade_view};

use crate::draft::{FieldDraft, PlacedCascade, TypeDraft};
use std::alloc::{AllocError, Global};

/// A cascade at its place.
#[derive(Drop)]
pub struct Cascade<'a> {
    /// The type's number.
    pub type_index: usize,
    /// The field's number in the type.
    pub field: usize,
    /// The place in the field, and what is written of the cascade.
    pub placed: &'a PlacedCascade<'a>,
}

/// Adds the cascades at a field and inside it.
fn add_field<'a>(
    cascades: &mut Vec<Cascade<'a>>,
    type_index: usize,
    number: usize,
    drafts: &'a [PlacedCascade<'a>],
) -> Result<(), AllocError>
    ensures { OnOk result (map cascade_view cascades.new.items ≡ map cascade_view cascades.old.items
        ++ map (cascade_in type_index number) (map placed_cascade_view drafts.now)) }
{
    for placed in drafts {
        cascades.push(Cascade {
            type_index,
            field: number,
            placed,
        })?;
    }
    Ok(())
}

/// Adds the cascades in a type's fields, in order.
fn add_fields<'a>(
    cascades: &mut Vec<Cascade<'a>>,
    type_index: usize,
    fields: &'a [FieldDraft<'a>],
) -> Result<(), AllocError>
    ensures { OnOk result (map cascade_view cascades.new.items ≡ map cascade_view cascades.old.items
        ++ flat_map (field_cascades type_index) (enumerate_from 0 (map field_view fields.now))) }
{
    for (number, field) in fields.iter().enumerate() {
        add_field(cascades, type_index, number, &field.cascades)?;
    }
    Ok(())
}

/// The cascades in the types' fields, in order.
pub fn cascades_in<'a>(
    alloc: Global,
    types: &'a [TypeDraft<'a>],
) -> Result<Vec<Cascade<'a>>, AllocError>
    ensures { IfOk result (λ v. map cascade_view v.items ≡ cascades_in (map type_view types.now)) }
{
    let mut cascades = Vec::new(alloc);
    for (index, declared) in types.iter().enumerate() {
        add_fields(&mut cascades, index, &declared.fields)?;
    }
    Ok(cascades)
}
