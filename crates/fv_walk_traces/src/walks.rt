//! Laws of walks that tell, as they go, what they enter and what they find.
#![tactic(auto)]

ghost use Rattle.std.specs.Prelude.{◌↔◌, ℕ, length, map};
ghost use Rattle.fv_graph.specs.Graph.{IsIn};
ghost use Rattle.fv_walk_traces.specs.Reaching.{violation};
ghost use Rattle.fv_walk_traces.specs.Requests.{GraphRequest};
ghost use Rattle.fv_walk_traces.specs.Traces.{IsVisit, IsEntered};
ghost use Rattle.fv_walk_traces.specs.Violations.{Violation, IsViolation};
ghost use Rattle.fv_walk_traces.specs.Tree.{visits_of_choices};
ghost use Rattle.fv_walk_traces.specs.Finite.{IsTidy, AreSoMany};
ghost use Rattle.fv_walk_traces.specs.Log.{finds, entries};
ghost use Rattle.fv_walk_traces.specs.Frames.{asks, asks_owe};

/// A walk that asks for all groups of a request, and stops a sequence behind the first rank that
/// fails, finds exactly the violations.
pub fn walk_finds_the_violations()
    ensures { (request : GraphRequest) (n : ℕ) → IsTidy request n → (v : Violation)
        → IsIn (map violation (finds (asks_owe request n request.asked))) v
        ↔ IsViolation request v }
{}

/// It enters as many visits as there are visits that no trace shadows.
pub fn walk_enters_the_entered_visits()
    ensures { (request : GraphRequest) (n : ℕ) → IsTidy request n
        → AreSoMany (IsEntered request) (entries (asks_owe request n request.asked)) }
{}

/// A walk that asks for all groups of a request, and stops nowhere, arrives as often as there are
/// visits.
pub fn walk_arrives_at_the_visits()
    ensures { (request : GraphRequest) (n : ℕ) → IsTidy request n
        → AreSoMany (IsVisit request) (length (visits_of_choices (asks request n request.asked))) }
{}
