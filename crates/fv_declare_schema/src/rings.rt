//! Rings of groups: what a cycle is told by.
ghost use Rattle.std.specs.Prelude.{◌≡◌, IfOk};
ghost use Rattle.fv_declare_schema.specs.GroupViews.{declared_view};
ghost use Rattle.fv_declare_schema.specs.Groups.{all_groups, inherit_next, member_next};
ghost use Rattle.fv_ring.specs.Rings.{FindsRing};

use crate::declared::DeclaredGroups;
use crate::draft::GroupDraft;
use fv_ring::ring;
use indexmap::IndexMap;
use std::alloc::{AllocError, Global};

/// Groups of which each inherits the next directly, and the last the first, by their numbers; none where
/// no group inherits itself. That of `Default` is 0.
pub fn inheritance_ring(
    alloc: Global,
    declared: IndexMap<String, GroupDraft>,
) -> Result<Option<Vec<usize>>, AllocError>
    ensures { IfOk result (FindsRing (inherit_next (all_groups (declared_view declared)))) }
{
    let groups = DeclaredGroups::new(declared);
    let edges = groups.inherited(alloc)?;
    ring(alloc, &edges)
}

/// Sequences of which each has the next as a member, and the last the first, by their numbers; none where
/// no sequence contains itself. The number of `Default` is 0.
pub fn sequence_ring(
    alloc: Global,
    declared: IndexMap<String, GroupDraft>,
) -> Result<Option<Vec<usize>>, AllocError>
    ensures { IfOk result (FindsRing (member_next (all_groups (declared_view declared)))) }
{
    let groups = DeclaredGroups::new(declared);
    let edges = groups.members(alloc)?;
    ring(alloc, &edges)
}
