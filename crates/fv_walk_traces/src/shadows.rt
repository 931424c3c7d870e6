//! Laws of lists of turns that shadow each other.
#![tactic(auto)]

ghost use Rattle.std.specs.Prelude.{◌≡◌, ◌++◌};
ghost use mathlib.Core.Logic.{◌⊎◌};
ghost use Rattle.fv_walk_traces.specs.Turns.{Turns, Shadows};

/// What shadows a list that shadows another shadows the other as well.
pub fn shadowing_is_transitive()
    ensures { (a b c : Turns) → Shadows a b → Shadows b c → Shadows a c }
{}

/// What shadows a list either does so by its first turns, or the list begins with those and is
/// shadowed behind them: a stop behind an arrival, or behind a group that was taken up there, hides
/// nothing elsewhere.
pub fn stop_hides_below_alone()
    ensures { (first rest other : Turns) → Shadows (first ++ rest) other
        → Shadows first other
        ⊎ ((below : Turns) × (other ≡ first ++ below) × Shadows rest below) }
{}
