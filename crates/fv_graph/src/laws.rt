//! Laws of what is made along the edges of a graph without cycles: functions that do nothing, and
//! whose contracts a caller's proof may cite.
#![tactic(auto)]

ghost use Rattle.std.specs.Prelude.{◌≡◌, ◌+◌, ℕ, List, length, map, sum};
ghost use Rattle.fv_graph.specs.Graph.{IsBelow, IsCyclic, MeetsCycle};
ghost use Rattle.fv_graph.specs.Recursion.{value};
ghost use Rattle.fv_graph.specs.Tree.{tree, handed, tree_of, listed};
ghost use Rattle.fv_graph.specs.Weight.{weight};

/// Where no node leads to itself, what is made at a node is made from what is made at those that its
/// edges lead to.
pub fn unfolds<V>()
    ensures { (combine : ℕ → List V → V) (next : ℕ → List ℕ) (count : ℕ) → IsBelow next count
        → (IsCyclic next → ⊥) → (i : ℕ)
        → value combine next count i ≡ combine i (map (λ j. value combine next count j) (next i)) }
{}

/// What is made at a node that meets no cycle is made from what is made at those that its edges lead
/// to, wherever else there are cycles.
pub fn unfolds_at<V>()
    ensures { (combine : ℕ → List V → V) (next : ℕ → List ℕ) (count : ℕ) → IsBelow next count
        → (i : ℕ) → (MeetsCycle next i → ⊥)
        → value combine next count i ≡ combine i (map (λ j. value combine next count j) (next i)) }
{}

/// A node weighs what it weighs itself and what those weigh that its edges lead to.
pub fn weight_unfolds()
    ensures { (own : ℕ → ℕ) (next : ℕ → List ℕ) (count : ℕ) → IsBelow next count
        → (IsCyclic next → ⊥) → (i : ℕ)
        → weight own next count i ≡ own i + sum (map (λ j. weight own next count j) (next i)) }
{}

/// The same of a node that meets no cycle, wherever else there are cycles.
pub fn weight_unfolds_at()
    ensures { (own : ℕ → ℕ) (next : ℕ → List ℕ) (count : ℕ) → IsBelow next count
        → (i : ℕ) → (MeetsCycle next i → ⊥)
        → weight own next count i ≡ own i + sum (map (λ j. weight own next count j) (next i)) }
{}

/// A node's tree is the node with its value, above the trees of what its edges lead to.
pub fn tree_unfolds<V>()
    ensures { (hands : ℕ → ℕ → V → V) (next : ℕ → List ℕ) (count : ℕ) → IsBelow next count
        → (IsCyclic next → ⊥) → (node : ℕ) (value : V)
        → tree_of hands next count node value
        ≡ tree node value (handed (hands node) value 0 (map (tree_of hands next count) (next node))) }
{}

/// A node's tree has as many nodes as the node weighs where each weighs one, whatever is handed down.
pub fn tree_len<V>()
    ensures { (hands : ℕ → ℕ → V → V) (next : ℕ → List ℕ) (count node : ℕ) (value : V)
        → length (listed (tree_of hands next count node value)) ≡ weight (λ _. 1) next count node }
{}
