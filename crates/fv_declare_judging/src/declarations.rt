ghost use Rattle.std.specs.Prelude.{◌≡◌, ◌≢◌, true, Ok, Err, IfOk, IfErr};
ghost use Rattle.serde_json.specs.View.{view as json_view};
ghost use Rattle.fv_declare_draft.specs.DraftViews.{draft_view};
ghost use Rattle.fv_declare_schema.specs.Fits.{fits};
ghost use Rattle.fv_declare_judging.specs.Judging.{DeclaredBy, IsAnswerTo, draft_faults, AreLed};
ghost use Rattle.fv_declare_judging.specs.Whereabouts.{IsAt, PlacedIn};

use crate::build::build;
use crate::fault::DeclFault;
use crate::judging::composed;
use crate::parts::parts_of;
use crate::placed::PlacedFault;
use fv_declare_draft::{Draft, draft_of, uses_in};
use fv_declare_schema::Schema;
use fv_registry::RuleSet;
use serde_json::Value;
use std::alloc::Global;

/// The schema that a draft declares.
fn schema_of_draft<R: RuleSet>(
    alloc: Global,
    rules: &R,
    draft: &Draft,
) -> Result<Schema, PlacedFault>
    requires { AreLed (draft_view draft.now) }
    ensures taken { IfOk result (λ s. IsAnswerTo (R.known rules.now) (draft_view draft.now) draft_faults (Ok s)) }
    ensures fits { IfOk result (λ s. fits (R.known rules.now) s ≡ true) }
    ensures refused { IfErr result (λ p. p.fault ≢ DeclFault.Memory
        → IsAnswerTo (R.known rules.now) (draft_view draft.now) draft_faults (Err p.fault)) }
    ensures placed { IfErr result (λ p. p.fault ≢ DeclFault.Memory → IsAt (R.known rules.now) (draft_view draft.now) p.fault p.at) }
{
    let uses = uses_in(alloc, &draft.types)?;
    let parts = parts_of(alloc, draft, &uses)?;
    let trees = composed(alloc, rules, draft, &uses, &parts)?;
    let schema = build(alloc, draft, &uses, parts, trees)?;
    Ok(schema)
}

/// The schema that a JSON value declares, where these rules are there.
///
/// Refused by the first fault, from `Shape` on, whose condition holds, with its place; by `Memory` at any place.
/// `Shape` and the four faults of cycles have no place here, and a place that stands with `Memory` tells nothing.
pub fn judge<R: RuleSet>(alloc: Global, rules: &R, value: &Value) -> Result<Schema, PlacedFault>
    ensures taken { IfOk result (λ s. DeclaredBy (R.known rules.now) (json_view value.now) (Ok s)) }
    ensures fits { IfOk result (λ s. fits (R.known rules.now) s ≡ true) }
    ensures refused { IfErr result (λ p. p.fault ≢ DeclFault.Memory
        → DeclaredBy (R.known rules.now) (json_view value.now) (Err p.fault)) }
    ensures placed { IfErr result (λ p. p.fault ≢ DeclFault.Memory → PlacedIn (R.known rules.now) (json_view value.now) p.fault p.at) }
{
    match draft_of(alloc, value)? {
        None => Err(PlacedFault {
            fault: DeclFault::Shape,
            at: None,
        }),
        Some(draft) => schema_of_draft(alloc, rules, &draft),
    }
}
