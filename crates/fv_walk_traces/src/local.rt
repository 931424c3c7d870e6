//! Laws of the failures of single objects.
#![tactic(auto)]

ghost use Rattle.std.specs.Prelude.{◌↔◌, ℕ, List};
ghost use Rattle.fv_graph.specs.Graph.{IsIn};
ghost use Rattle.fv_walk_traces.specs.Turns.{LocalFailure};
ghost use Rattle.fv_walk_traces.specs.Requests.{Own, GraphRequest};
ghost use Rattle.fv_walk_traces.specs.Violations.{Violation, IsViolation};
ghost use Rattle.fv_walk_traces.specs.OneObject.{IsLocalIn, told_in};
ghost use Rattle.fv_walk_traces.specs.Listing.{IsListed};
ghost use Rattle.fv_walk_traces.specs.Finite.{IsTidy};

/// The failures of one object are, group by group, all that fails, and where the type has a sequence
/// what fails in the first rank in which something does.
pub fn local_failures_are_exact()
    ensures { (hs : List ℕ) (own : ℕ → Own) (f : LocalFailure) → IsIn (told_in hs own) f ↔ IsLocalIn hs own f }
{}

/// The violations are the failures of the objects of all visits, but for the visits that are
/// shadowed by a visit whose object has a failure.
pub fn listing_is_exact()
    ensures { (request : GraphRequest) (n : ℕ) → IsTidy request n → (v : Violation)
        → IsViolation request v ↔ IsListed request v }
{}
