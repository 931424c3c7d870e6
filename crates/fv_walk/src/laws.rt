//! Laws of what fails in a field: functions that do nothing, and whose contracts a caller's proof may
//! cite.
ghost use Rattle.std.specs.Prelude.{◌≡◌, ℕ, ℤ, List, Some};
ghost use Rattle.fv_datum.specs.Lookup.{at_name};
ghost use Rattle.fv_declare_schema.specs.Declarations.{Declarations};
ghost use Rattle.fv_declare_schema.specs.Ordered.{AreOrdered};
ghost use Rattle.fv_bundle.specs.Bundles.{Thing, Bundled};
ghost use Rattle.fv_bundle.specs.WellTyped.{IsWellTyped, IsOfType};
ghost use Rattle.fv_walk.specs.Properties.{IsViolationIn};
ghost use Rattle.fv_registry.specs.Meanings.{Meanings};
ghost use Rattle.fv_walk_traces.specs.Violations.{Violation};
ghost use Rattle.fv_bundle.specs.Types.{Declared};

/// Each object of a well-typed bundle is of its type.
pub fn objects_are_of_their_types()
    ensures { (ts : Declared) (b : Bundled) (name : List ℕ) (t : Thing)
        → IsWellTyped ts b → at_name name b.objects ≡ Some t → IsOfType ts t }
{}

/// No two violations in a field of an object have one path and one node.
pub fn failures_of_a_field_are_told_apart()
    ensures { (m : Meanings) (ds : Declarations) (now : ℤ) (object : Thing) (name asked : List ℕ)
        → AreOrdered ds → IsOfType ds.types object → (v w : Violation)
        → IsViolationIn m ds now object name asked v → IsViolationIn m ds now object name asked w
        → v.path ≡ w.path → v.node ≡ w.node → v ≡ w }
{}
