//! The types of a draft by their names, before they are judged.
ghost use Rattle.std.specs.Prelude.{◌≡◌, IfOk, map};
ghost use Rattle.fv_datum.specs.Ascending.{IsAscending};
ghost use Rattle.fv_bundle.specs.Types.{fields_view, declared_view};
ghost use Rattle.fv_declare_judging.specs.Types.{field_declared, type_declared};
ghost use Rattle.fv_declare_draft.specs.DraftViews.{field_view, type_view};

use fv_bundle::Fields;
use fv_declare_draft::{FieldDraft, TypeDraft};
use indexmap::IndexMap;
use std::alloc::{AllocError, Global};

/// A type's fields: what each holds, by its name.
fn fields_for(alloc: Global, fields: &[FieldDraft]) -> Result<Fields, AllocError>
    requires { IsAscending (map (λ f. f.name.now) fields.now) }
    ensures { IfOk result (λ m. fields_view m ≡ map field_declared (map field_view fields.now)) }
{
    let mut uses = IndexMap::new(alloc);
    for field in fields {
        let type_use = field.type_use.copy()?;
        let _ = uses.insert(String::from_str(alloc, field.name)?, type_use)?;
    }
    Ok(uses)
}

/// The types by their names, in their order.
pub(crate) fn types_for(
    alloc: Global,
    types: &[TypeDraft],
) -> Result<IndexMap<String, Fields>, AllocError>
    requires { IsAscending (map (λ t. t.name.now) types.now) }
    ensures { IfOk result (λ m. declared_view m ≡ map type_declared (map type_view types.now)) }
{
    let mut declared = IndexMap::new(alloc);
    for given in types {
        let fields = fields_for(alloc, &given.fields)?;
        let _ = declared.insert(String::from_str(alloc, given.name)?, fields)?;
    }
    Ok(declared)
}
