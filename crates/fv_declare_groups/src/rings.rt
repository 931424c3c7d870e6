//! Rings of the groups that a draft declares.
ghost use Rattle.std.specs.Prelude.{◌≡◌, IfOk};
ghost use Rattle.fv_declare_draft.specs.DraftViews.{draft_view};
ghost use Rattle.fv_declare_groups.specs.Grouping.{groups_in};
ghost use Rattle.fv_declare_schema.specs.Groups.{inherit_next, member_next};
ghost use Rattle.fv_ring.specs.Rings.{FindsRing};

use crate::declared::groups_for;
use fv_declare_draft::Draft;
use std::alloc::{AllocError, Global};

/// Groups of which each inherits the next directly, and the last the first, by their numbers, `Default` the
/// first of all; none where no group inherits itself.
pub fn inheritance_ring(alloc: Global, draft: &Draft) -> Result<Option<Vec<usize>>, AllocError>
    ensures { IfOk result (FindsRing (inherit_next (groups_in (draft_view draft.now)))) }
{
    fv_declare_schema::inheritance_ring(alloc, groups_for(alloc, &draft.groups)?)
}

/// Sequences of which each has the next as a member, and the last the first, by their numbers, `Default` the
/// first of all groups; none where no sequence contains itself.
pub fn sequence_ring(alloc: Global, draft: &Draft) -> Result<Option<Vec<usize>>, AllocError>
    ensures { IfOk result (FindsRing (member_next (groups_in (draft_view draft.now)))) }
{
    fv_declare_schema::sequence_ring(alloc, groups_for(alloc, &draft.groups)?)
}
