//! Laws of what groups stand for: functions that do nothing, and whose contracts a caller's proof may
//! cite.
ghost use Rattle.std.specs.Prelude.{◌↔◌, ℕ};
ghost use Rattle.fv_graph.specs.Graph.{IsIn, AllDiffer};
ghost use Rattle.fv_declare_schema.specs.Groups.{Groups, Inherits};
ghost use Rattle.fv_local.specs.Below.{below};

/// A group stands for itself and those that it inherits, directly or through others.
pub fn below_is_what_is_inherited()
    ensures { (gs : Groups) (g h : ℕ) → IsIn (below gs g) h ↔ Inherits gs g h }
{}

/// A group stands for no group twice.
pub fn below_has_each_once()
    ensures { (gs : Groups) (g : ℕ) → AllDiffer (below gs g) }
{}
