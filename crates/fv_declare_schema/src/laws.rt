//! Laws of groups: functions that do nothing, and whose contracts a caller's proof may cite.
ghost use Rattle.std.specs.Prelude.{◌≡◌, ◌<◌, ℕ, [], ◌∷◌, map, length, cond, false};
ghost use Rattle.std.specs.List.{concat};
ghost use Rattle.fv_graph.specs.Graph.{IsIn};
ghost use Rattle.fv_declare_schema.specs.Groups.{Groups, is_sequence, member_next, ranks};
ghost use Rattle.fv_declare_schema.specs.Judged.{AreSound};
ghost use Rattle.fv_declare_schema.specs.Once.{once};

/// A plain group stands for itself, and a sequence for what its members stand for, in order, a repeat
/// after the first dropped.
pub fn ranks_unfold()
    ensures { (gs : Groups) → AreSound gs → (g : ℕ)
        → ranks gs g ≡ cond (is_sequence gs g) (once (concat (map (ranks gs) (member_next gs g)))) (g ∷ []) }
{}

/// What a group stands for are plain groups.
pub fn ranks_are_plain()
    ensures { (gs : Groups) (g j : ℕ) → g < length gs → IsIn (ranks gs g) j
        → (j < length gs) × (is_sequence gs j ≡ false) }
{}
