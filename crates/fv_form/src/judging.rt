//! Where declarations or a command aren't of their form.
ghost use Rattle.std.specs.Prelude.{◌≡◌, IfOk, not, is_some, option_map};
ghost use Rattle.serde_json.specs.View.{view as json_view};
ghost use Rattle.fv_declare_draft.specs.Drafts.{draft_of};
ghost use Rattle.fv_form.specs.Asked.{asked};
ghost use Rattle.fv_form.specs.Commands.{is_command};
ghost use Rattle.fv_form.specs.MisfitViews.{misfit_view};
ghost use Rattle.fv_form.specs.Misfits.{first_misfit};

use crate::finding::first_misfit;
use crate::form_name::FormName;
use crate::misfit::Sought;
use serde_json::Value;
use std::alloc::Global;

/// Where a value isn't declarations: none exactly where it is read as a draft.
pub fn draft_misfit<'a>(alloc: Global, value: &'a Value) -> Sought<'a>
    ensures placed { IfOk result (λ o. option_map misfit_view o
        ≡ first_misfit asked FormName.Declarations (json_view value.now)) }
    ensures found { IfOk result (λ o. not (is_some o) ≡ is_some (draft_of (json_view value.now))) }
{
    first_misfit(alloc, FormName::Declarations, value)
}

/// Where a value isn't a command: none exactly where it is read as one, or as a redeclare, and each
/// bundle in it is of the form of one.
pub fn command_misfit<'a>(alloc: Global, value: &'a Value) -> Sought<'a>
    ensures placed { IfOk result (λ o. option_map misfit_view o
        ≡ first_misfit asked FormName.Command (json_view value.now)) }
    ensures found { IfOk result (λ o. not (is_some o) ≡ is_command (json_view value.now)) }
{
    first_misfit(alloc, FormName::Command, value)
}
