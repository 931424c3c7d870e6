//! Laws of the violations of a bundle: functions that do nothing, and whose contracts a caller's
//! proof may cite.
ghost use Rattle.std.specs.Prelude.{◌≡◌, ◌↔◌, ℕ, ℤ, List};
ghost use Rattle.fv_declare_schema.specs.Declarations.{Declarations};
ghost use Rattle.fv_declare_schema.specs.Ordered.{AreOrdered};
ghost use Rattle.fv_bundle.specs.Bundles.{Bundled};
ghost use Rattle.fv_bundle.specs.WellTyped.{IsWellTyped};
ghost use Rattle.fv_registry.specs.Meanings.{Meanings};
ghost use Rattle.fv_walk_traces.specs.Traces.{IsVisit};
ghost use Rattle.fv_walk_traces.specs.Turns.{Turns};
ghost use Rattle.fv_walk_traces.specs.Violations.{Violation, IsViolation};
ghost use Rattle.fv_local.specs.Requests.{request_of, unjudged};

/// No two violations of a bundle have one path and one node.
pub fn violations_are_told_apart()
    ensures { (m : Meanings) (ds : Declarations) (now : ℤ) (b : Bundled) (asked : List ℕ)
        → AreOrdered ds → IsWellTyped ds.types b → (v w : Violation)
        → IsViolation (request_of m ds now b asked) v → IsViolation (request_of m ds now b asked) w
        → v.path ≡ w.path → v.node ≡ w.node → v ≡ w }
{}

/// What the visits of a request are doesn't depend on what fails.
pub fn visits_need_no_judging()
    ensures { (m : Meanings) (ds : Declarations) (now : ℤ) (b : Bundled) (asked : List ℕ) (turns : Turns)
        → IsVisit (request_of m ds now b asked) turns ↔ IsVisit (unjudged ds b asked) turns }
{}
