ghost use Rattle.std.specs.Prelude.{◌≡◌, ◌∷◌, ◌<◌, map, drop, option_map, slice_get};
ghost use Rattle.std.specs.List.{list_all, list_any};
ghost use Rattle.fv_constraint_tree.specs.Fits.{test_fits, fits, asks_object, on_object};
ghost use Rattle.fv_constraint_tree.specs.Preorder.{preorder, IsPreorder};
ghost use Rattle.fv_constraint_tree.specs.Trees.{size};
ghost use Rattle.fv_constraint_tree.specs.Views.{test_view, entry_view};

use crate::node::{Node, Test};
use fv_registry::RuleSet;
use std::marker::Model;

/// A composed constraint where it is used: the constraint and those that it is composed of, in
/// preorder. Contracts see it as their tree, and number its nodes in preorder from 0.
#[derive(Drop)]
pub struct Occurrence {
    root: Node,
    below: Vec<Node>,
}

impl Model for Occurrence {
    ghost use Rattle.std.specs.Prelude.{◌≡◌, ◌∷◌, map};
    ghost use Rattle.std.specs.Coded.{codes};
    ghost use Rattle.fv_builtin.specs.Codes.{pattern_code};
    ghost use Rattle.fv_constraint_tree.specs.Codes.{tree_code};
    ghost use Rattle.fv_constraint_tree.specs.Nodes as spec;
    ghost use Rattle.fv_constraint_tree.specs.Preorder.{preorder, tree_in};
    ghost use Rattle.fv_constraint_tree.specs.Trees.{Tree};
    ghost use Rattle.fv_constraint_tree.specs.Views.{node_view, entry_view};

    ghost Value = { Tree spec.Node };

    ghost coded = { tree_code (Prim.hlevel (codes, pattern_code)) };

    ghost view = { λ o. tree_in (node_view o.root) (map entry_view o.below.items) };

    ghost invariant = { λ o. preorder (tree_in (node_view o.root) (map entry_view o.below.items))
        ≡ map entry_view (o.root ∷ o.below.items) };
}

impl Occurrence {
    /// The tree of a root and of the nodes below it in preorder.
    pub fn new(root: Node, below: Vec<Node>) -> Occurrence
        requires { IsPreorder (map entry_view (root ∷ below.items)) }
        ensures { preorder result ≡ map entry_view (root ∷ below.items) }
    {
        Occurrence { root, below }
    }

    /// How many nodes there are.
    pub fn size(&self) -> usize
        ensures { result ≡ size self.now }
    {
        self.below.len() + 1
    }

    /// The node of that number.
    pub fn node(&self, number: usize) -> Option<&Node>
        ensures { option_map (λ n. entry_view n.now) result ≡ slice_get (preorder self.now) number }
    {
        match number.checked_sub(1) {
            None => Some(&self.root),
            Some(before) => self.below.get(before),
        }
    }

    /// The node of that number, and all nodes behind it.
    pub(crate) fn split_at(&self, number: usize) -> (&Node, &[Node])
        requires { number < size self.now }
        ensures { map entry_view (result.0.now ∷ result.1.now) ≡ drop number (preorder self.now) }
    {
        match number.checked_sub(1) {
            None => (&self.root, &self.below),
            Some(before) => (&self.below[before], &self.below[number..]),
        }
    }

    /// Whether each rule that is asked is registered for its sort of subject.
    pub fn fits<R: RuleSet>(&self, rules: &R) -> bool
        ensures { result ≡ fits (R.known rules.now) self.now }
    {
        test_fits(rules, &self.root.test) && all_fit(rules, &self.below)
    }

    /// Whether a rule of objects is asked.
    pub fn on_object(&self) -> bool
        ensures { result ≡ on_object self.now }
    {
        asks_object(&self.root.test) || any_asks_object(&self.below)
    }
}

fn test_fits<R: RuleSet>(rules: &R, test: &Test) -> bool
    ensures { result ≡ test_fits (R.known rules.now) (test_view test.now) }
{
    match test {
        Test::BuiltIn(_) | Test::Nothing => true,
        Test::Rule(rule) => rules.knows_field(*rule),
        Test::ObjectRule(rule) => rules.knows_object(*rule),
    }
}

fn all_fit<R: RuleSet>(rules: &R, nodes: &[Node]) -> bool
    ensures { result ≡ list_all (λ n. test_fits (R.known rules.now) (test_view n.test)) nodes.now }
{
    for node in nodes {
        if !test_fits(rules, &node.test) {
            return false;
        }
    }
    true
}

fn asks_object(test: &Test) -> bool
    ensures { result ≡ asks_object (test_view test.now) }
{
    matches!(test, Test::ObjectRule(_))
}

fn any_asks_object(nodes: &[Node]) -> bool
    ensures { result ≡ list_any (λ n. asks_object (test_view n.test)) nodes.now }
{
    nodes.iter().any(|node| asks_object(&node.test))
}
