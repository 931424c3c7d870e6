//! The group that is carried on.
ghost use Rattle.std.specs.Prelude.{◌≡◌, ◌<◌, All, length, map};
ghost use Rattle.fv_declare_schema.specs.NumberViews.{conversion_numbers};
ghost use Rattle.fv_local.specs.Conversions.{convert};

use fv_declare_schema::{GroupConversion, GroupId};

/// The group that these conversions make of a group: that of the first of exactly this group, applied
/// once; the group itself where none is of it.
pub fn converted(conversions: &[GroupConversion], group: GroupId) -> GroupId
    ensures { result.index ≡ convert (map conversion_numbers conversions.now) group.index }
{
    for conversion in conversions {
        if conversion.from.index == group.index {
            return conversion.to;
        }
    }
    group
}
