//! Laws of requests for one field.
#![tactic(auto)]

ghost use Rattle.std.specs.Prelude.{◌↔◌, ℕ};
ghost use Rattle.fv_walk_traces.specs.Turns.{Turns};
ghost use Rattle.fv_walk_traces.specs.Requests.{GraphRequest};
ghost use Rattle.fv_walk_traces.specs.Traces.{IsTrace, IsVisit, IsEntered};
ghost use Rattle.fv_walk_traces.specs.Violations.{Violation, IsViolation};
ghost use Rattle.fv_walk_traces.specs.OneField.{IsTraceOfField, IsVisitOfField, IsEnteredOfField, IsViolationOfField, narrowed};
ghost use Rattle.fv_walk_traces.specs.Finite.{IsTidy};

/// A request for one field is the request narrowed to the field: in its traces, its visits, those
/// that are entered, and its violations.
pub fn field_is_narrowed()
    ensures traces { (request : GraphRequest) (field : ℕ) (turns : Turns)
        → IsTraceOfField request field turns ↔ IsTrace (narrowed field request) turns }
    ensures visits { (request : GraphRequest) (field : ℕ) (turns : Turns)
        → IsVisitOfField request turns ↔ IsVisit (narrowed field request) turns }
    ensures entered { (request : GraphRequest) (field : ℕ) (turns : Turns)
        → IsEnteredOfField request field turns ↔ IsEntered (narrowed field request) turns }
    ensures violations { (request : GraphRequest) (field : ℕ) (v : Violation)
        → IsViolationOfField request field v ↔ IsViolation (narrowed field request) v }
{}

/// A narrowed request is finite, and without repeats, where the request is.
pub fn narrowed_is_tidy()
    ensures { (request : GraphRequest) (field n : ℕ) → IsTidy request n
        → IsTidy (narrowed field request) n }
{}
