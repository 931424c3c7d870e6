//! Laws of the traces of a request.
#![tactic(auto)]

ghost use Rattle.std.specs.Prelude.{◌≡◌, ◌↔◌, ◌++◌, ℕ};
ghost use Rattle.fv_graph.specs.Graph.{IsIn};
ghost use Rattle.fv_walk_traces.specs.Turns.{Turns, Shadows};
ghost use Rattle.fv_walk_traces.specs.Requests.{GraphRequest};
ghost use Rattle.fv_walk_traces.specs.Traces.{IsTrace, IsSpared};
ghost use Rattle.fv_walk_traces.specs.Violations.{Violation, IsViolation};
ghost use Rattle.fv_walk_traces.specs.Unfold.{TraceFrom};
ghost use Rattle.fv_walk_traces.specs.Points.{Start, next};
ghost use Rattle.fv_walk_traces.specs.Finite.{IsTidy, IsListOf, told_traces, told_violations};

/// The traces, which are made of four parts, are the walks from point to point.
pub fn parts_are_the_walk()
    ensures { (request : GraphRequest) (turns : Turns)
        → IsTrace request turns ↔ TraceFrom (next request) Start turns }
{}

/// An evaluation that stops a sequence behind the first rank that fails tells exactly the traces
/// that no trace shadows, each once.
pub fn told_traces_are_exact()
    ensures { (request : GraphRequest) (n : ℕ) → IsTidy request n
        → IsListOf (λ (r : Turns). IsTrace request r × IsSpared request r) (told_traces request n) }
{}

/// It tells exactly the violations.
pub fn told_violations_are_exact()
    ensures { (request : GraphRequest) (n : ℕ) → IsTidy request n → (v : Violation)
        → IsIn (told_violations request n) v ↔ IsViolation request v }
{}

/// What a trace shadows, a trace or a visit, is shadowed by a trace that none shadows.
pub fn shadowed_by_a_spared_trace()
    ensures { (request : GraphRequest) (n : ℕ) → IsTidy request n
        → (turns other : Turns) → IsTrace request other → Shadows other turns
        → (last : Turns) × IsTrace request last × IsSpared request last × Shadows last turns }
{}

/// Where a trace goes on from some first turns, as from the turns to a rank and that rank, one goes
/// on from there that nothing shadows at a later turn.
pub fn last_word()
    ensures { (request : GraphRequest) (n : ℕ) → IsTidy request n
        → (first rest : Turns) → IsTrace request (first ++ rest)
        → (best : Turns) × IsTrace request (first ++ best)
        × ((other : Turns) → IsTrace request (first ++ other) → Shadows other best → ⊥) }
{}
