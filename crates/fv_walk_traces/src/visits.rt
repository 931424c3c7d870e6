//! Laws of the visits of a request.
#![tactic(auto)]

ghost use Rattle.std.specs.Prelude.{◌≡◌, ℕ, length};
ghost use Rattle.fv_walk_traces.specs.Requests.{GraphRequest};
ghost use Rattle.fv_walk_traces.specs.Traces.{IsVisit, IsEntered};
ghost use Rattle.fv_walk_traces.specs.Finite.{IsTidy, IsListOf, AreSoMany, entered_visits, all_visits};

/// An evaluation that stops a sequence behind the first rank that fails enters exactly the visits
/// that no trace shadows, each once; and their number is the only one.
pub fn entered_visits_are_exact()
    ensures exact { (request : GraphRequest) (n : ℕ) → IsTidy request n
        → IsListOf (IsEntered request) (entered_visits request n) }
    ensures number { (request : GraphRequest) (n : ℕ) → IsTidy request n
        → (many : ℕ) → AreSoMany (IsEntered request) many
        → many ≡ length (entered_visits request n) }
{}

/// All visits are finitely many, each listed once; and their number is the only one.
pub fn visits_are_exact()
    ensures exact { (request : GraphRequest) (n : ℕ) → IsTidy request n
        → IsListOf (IsVisit request) (all_visits request n) }
    ensures number { (request : GraphRequest) (n : ℕ) → IsTidy request n
        → (many : ℕ) → AreSoMany (IsVisit request) many
        → many ≡ length (all_visits request n) }
{}
