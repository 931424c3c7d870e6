//! The first value with the flaw, one step inside a value.
ghost use Rattle.std.specs.Prelude.{◌≡◌, IfOk, IfSome, Some, is_some};
ghost use Rattle.std.specs.List.{list_any};
ghost use Rattle.serde_json.specs.View.{view as json_view};
ghost use Rattle.fv_bundle.specs.Flaws.{items_in, members_in};
ghost use Rattle.fv_bundle.specs.Held.{values};
ghost use Rattle.fv_bundle.specs.Types.{TypeUse as AnyUse, type_use_view};
ghost use Rattle.fv_model_fault.specs.Places.{item_use};
ghost use Rattle.fv_model_fault.specs.SearchViews.{sought, IsNext};
ghost use Rattle.fv_model_fault.specs.Sought.{has_inside};

use crate::place::Inner;
use crate::search::Search;
use fv_bundle::TypeUse;
use serde_json::Value;
use std::alloc::AllocError;

/// A value one step inside another, with what it should be.
pub(crate) type Inside<'t, 'a> = (Inner<'a>, &'t TypeUse, &'a Value);

impl Search<'_, '_> {
    /// The first item with the flaw, where the value is an array.
    fn inside_array<'t, 'a>(
        &self,
        held: &'t TypeUse,
        value: &'a Value,
    ) -> Result<Option<Inside<'t, 'a>>, AllocError>
        ensures told { IfOk result (λ r. is_some r
            ≡ list_any (sought self.now (Some (type_use_view held.now))) (items_in (json_view value.now))) }
        ensures found { IfOk result (λ r. IfSome r (λ n. (u : AnyUse) → item_use u ≡ Some (type_use_view held.now)
            → IsNext (sought self.now) u (json_view value.now) n)) }
    {
        let Some(items) = value.as_array() else {
            return Ok(None);
        };
        for (index, item) in items.iter().enumerate() {
            if self.has_flaw(held, item)? {
                return Ok(Some((Inner::Item(index), held, item)));
            }
        }
        Ok(None)
    }

    /// The first member whose value has the flaw, where the value is an object.
    fn inside_object<'t, 'a>(
        &self,
        held: &'t TypeUse,
        value: &'a Value,
    ) -> Result<Option<Inside<'t, 'a>>, AllocError>
        ensures told { IfOk result (λ r. is_some r
            ≡ list_any (λ m. sought self.now (Some (type_use_view held.now)) m.1) (members_in (json_view value.now))) }
        ensures found { IfOk result (λ r. IfSome r (λ n. (u : AnyUse) → values u ≡ Some (type_use_view held.now)
            → IsNext (sought self.now) u (json_view value.now) n)) }
    {
        let Some(members) = value.as_object() else {
            return Ok(None);
        };
        for (name, member) in members.iter() {
            if self.has_flaw(held, member)? {
                return Ok(Some((Inner::Member(name.as_str()), held, member)));
            }
        }
        Ok(None)
    }

    /// The first value with the flaw, one step inside a value of a type use.
    pub(crate) fn first_inside<'t, 'a>(
        &self,
        type_use: &'t TypeUse,
        value: &'a Value,
    ) -> Result<Option<Inside<'t, 'a>>, AllocError>
        ensures told { IfOk result (λ r. is_some r
            ≡ has_inside (sought self.now) (Some (type_use_view type_use.now)) (json_view value.now)) }
        ensures found { IfOk result (λ r. IfSome r (IsNext (sought self.now) (type_use_view type_use.now) (json_view value.now))) }
    {
        match type_use {
            TypeUse::List(held) | TypeUse::Optional(held) => self.inside_array(held, value),
            TypeUse::Map(held) => self.inside_object(held, value),
            _ => Ok(None),
        }
    }
}
