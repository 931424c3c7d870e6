//! The uses of one type.
ghost use Rattle.std.specs.Prelude.{◌≡◌};
ghost use Rattle.fv_declare_schema.specs.Ordered.{AreOrdered};
ghost use Rattle.fv_local.specs.Spans.{AreOfType};

use fv_bundle::TypeId;
use fv_declare_schema::Schema;

/// A type with its uses, which stand together: by their numbers among all, from the first to before
/// the end.
#[derive(Clone, Copy)]
pub(crate) struct TypeUses {
    pub(crate) type_id: TypeId,
    pub(crate) first: usize,
    pub(crate) end: usize,
}

/// A type with its uses.
pub(crate) fn uses_of(schema: &Schema, type_id: TypeId) -> TypeUses
    ensures type_id { result.type_id.index ≡ type_id.index }
    ensures uses { AreOfType schema.now.occurrences result }
    ensures ordered { AreOrdered schema.now }
{
    let occurrences = schema.occurrences();
    let first = occurrences.partition_point(|it| it.type_id().index < type_id.index);
    let end = occurrences.partition_point(|it| it.type_id().index <= type_id.index);
    TypeUses {
        type_id,
        first,
        end,
    }
}
