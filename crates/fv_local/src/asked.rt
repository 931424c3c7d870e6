//! The groups that are asked for.
ghost use Rattle.std.specs.Prelude.{◌≡◌, IfOk};
ghost use Rattle.fv_declare_schema.specs.Tables.{indices};
ghost use Rattle.fv_local.specs.Requests.{asked_or_default, asked_groups};

use fv_declare_schema::{GroupId, add_new};
use std::alloc::{AllocError, Global};

/// The group `Default`.
const DEFAULT: GroupId = GroupId { index: 0 };

/// The groups that are asked for; `Default` alone where none is.
fn or_default(asked: &[GroupId]) -> &[GroupId]
    ensures { indices result.now ≡ asked_or_default (indices asked.now) }
{
    if asked.is_empty() { &[DEFAULT] } else { asked }
}

/// The groups that are asked for, a repeat after the first dropped; `Default` alone where none is.
pub fn distinct_or_default(alloc: Global, asked: &[GroupId]) -> Result<Vec<GroupId>, AllocError>
    ensures { IfOk result (λ v. indices v.items ≡ asked_groups (indices asked.now)) }
{
    let mut groups = Vec::new(alloc);
    add_new(&mut groups, or_default(asked))?;
    Ok(groups)
}
