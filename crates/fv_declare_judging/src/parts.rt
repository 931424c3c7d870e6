//! What is judged of declarations before their constraints are composed.
ghost use Rattle.std.specs.Prelude.{◌≡◌, ◌≢◌, Err, IfOk, IfErr, map};
ghost use Rattle.fv_declare_draft.specs.AllUses.{uses_in};
ghost use Rattle.fv_declare_draft.specs.DraftViews.{draft_view};
ghost use Rattle.fv_declare_draft.specs.UseViews.{use_view};
ghost use Rattle.fv_declare_judging.specs.Judging.{IsAnswerTo, draft_faults, AreLed};
ghost use Rattle.fv_declare_judging.specs.Parts.{IsChecked};
ghost use Rattle.fv_declare_judging.specs.Whereabouts.{IsAt};
ghost use Rattle.fv_registry.specs.Rules.{Known};

use crate::fault::DeclFault;
use crate::names::known_types;
use crate::placed::{PlacedFault, PlacedWording};
use crate::wording::wording;
use fv_bundle::{Types, TypesAt};
use fv_declare_draft::{Draft, Use};
use fv_declare_groups::{Grouping, grouped};
use fv_message::Messages;
use std::alloc::Global;

/// The types, groups and messages of declarations whose names are known and stand as they may.
#[derive(Drop)]
pub(crate) struct Parts<'a> {
    /// The types, or which of their limits is passed.
    pub types: Result<Types, TypesAt>,
    /// The groups, of which a limit may be passed.
    pub groups: Grouping<'a>,
    /// The messages, or what is wrong with the wording.
    pub wording: Result<Messages, PlacedWording>,
}

/// The parts of a draft, or the first fault of its names and groups. The uses are the draft's.
pub(crate) fn parts_of<'a>(
    alloc: Global,
    draft: &'a Draft<'a>,
    uses: &[Use<'a>],
) -> Result<Parts<'a>, PlacedFault>
    requires led { AreLed (draft_view draft.now) }
    requires uses { map use_view uses.now ≡ uses_in (draft_view draft.now).types }
    ensures taken { IfOk result (λ p. IsChecked (draft_view draft.now) (map use_view uses.now) p) }
    ensures refused { IfErr result (λ p. p.fault ≢ DeclFault.Memory
        → (k : Known) → IsAnswerTo k (draft_view draft.now) draft_faults (Err p.fault)) }
    ensures placed { IfErr result (λ p. p.fault ≢ DeclFault.Memory
        → (k : Known) → IsAt k (draft_view draft.now) p.fault p.at) }
{
    let types = known_types(alloc, draft, uses)?;
    let groups = grouped(alloc, draft, uses)?;
    let wording = wording(alloc, draft, uses);
    Ok(Parts {
        types,
        groups,
        wording,
    })
}
