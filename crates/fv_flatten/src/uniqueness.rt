//! Laws of the trees that definitions compose: functions that do nothing, and whose contracts a
//! caller's proof may cite.
ghost use Rattle.std.specs.Prelude.{◌≡◌, ℕ, List, Option};
ghost use Rattle.fv_datum.specs.Attributes.{Attributes};
ghost use Rattle.fv_constraint.specs.Composed.{Planned, IsTreeOf};
ghost use Rattle.fv_flatten.specs.Flattening.{Use, AreTreesOfUses};
ghost use Rattle.fv_constraint_tree.specs.Trees.{Tree};
ghost use Rattle.fv_declare_definition.specs.Definitions.{Definitions};

/// A constraint has one tree alone with its own message and the attributes that it is given.
pub fn tree_is_unique()
    ensures { (ds : Definitions) (name : List ℕ) (own : Option (List ℕ)) (given : Attributes) (t u : Tree Planned)
        → IsTreeOf ds name own given t → IsTreeOf ds name own given u → t ≡ u }
{}

/// Uses have one list of trees alone.
pub fn trees_are_unique()
    ensures { (ds : Definitions) (us : List Use) (ts others : List (Tree Planned))
        → AreTreesOfUses ds us ts → AreTreesOfUses ds us others → ts ≡ others }
{}
