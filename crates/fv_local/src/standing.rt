//! The groups that a group stands for at a type.
ghost use Rattle.std.specs.Prelude.{◌≡◌, ◌<◌, All, length};
ghost use Rattle.std.specs.List.{list_any};
ghost use Rattle.fv_graph.specs.Graph.{mem};
ghost use Rattle.fv_declare_schema.specs.Tables.{indices};
ghost use Rattle.fv_local.specs.Below.{groups_at};

use fv_declare_schema::{GroupId, Groups};

/// The number of `Default`.
const DEFAULT: usize = 0;

/// Whether a group stands for another at a type; where the type redefines `Default`, no group stands
/// for that.
fn stands_for(groups: &Groups, redefined: bool, group: GroupId, other: GroupId) -> bool
    requires group { group.index < length groups.now }
    requires other { other.index < length groups.now }
    ensures { result ≡ mem (groups_at groups.now redefined group.index) other.index }
{
    if redefined && other.index == DEFAULT {
        return false;
    }
    groups.inherits(group, other)
}

/// Whether a group stands for one of these at a type.
pub(crate) fn stands_for_any(
    groups: &Groups,
    redefined: bool,
    group: GroupId,
    others: &[GroupId],
) -> bool
    requires group { group.index < length groups.now }
    requires others { All (λ h. h.index < length groups.now) others.now }
    ensures { result ≡ list_any (mem (groups_at groups.now redefined group.index)) (indices others.now) }
{
    for other in others {
        if stands_for(groups, redefined, group, *other) {
            return true;
        }
    }
    false
}
