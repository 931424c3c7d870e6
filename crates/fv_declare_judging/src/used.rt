//! What is used, each of what it judges.
ghost use Rattle.std.specs.Prelude.{◌≡◌, IfOk, map};
ghost use Rattle.fv_flatten.specs.UseViews.{use_view as flat_use_view};
ghost use Rattle.fv_declare_judging.specs.Used.{used};
ghost use Rattle.fv_declare_draft.specs.UseViews.{use_view};

use fv_declare_draft::Use;
use std::alloc::{AllocError, Global};

/// What is used, in order, each of what it judges.
pub(crate) fn used_in<'a>(
    alloc: Global,
    uses: &[Use<'a>],
) -> Result<Vec<fv_flatten::Use<'a>>, AllocError>
    ensures { IfOk result (λ v. map flat_use_view v.items ≡ map used (map use_view uses.now)) }
{
    let mut flat = Vec::with_capacity(alloc, uses.len())?;
    for given in uses {
        flat.push(fv_flatten::Use {
            constraint: given.constraint,
            message: given.message,
            given: given.given,
            place: given.place.judged_at(),
        })?;
    }
    Ok(flat)
}
