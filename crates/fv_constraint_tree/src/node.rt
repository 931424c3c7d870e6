//! A constraint in a tree of constraints, and where it stands.
ghost use Rattle.std.specs.Prelude.{◌≡◌};
ghost use Rattle.fv_constraint_tree.specs.Views.{node_view};

use fv_builtin::Builtin;
use fv_datum::{Attrs, Kind};

/// Where a constraint stands.
#[derive(Clone, Copy, Debug, PartialEq, Eq)]
pub enum Target {
    /// At objects.
    Object,
    /// At data of the kind.
    Data(Kind),
}

/// What a constraint asks itself, apart from the constraints that it is composed of.
#[derive(Drop)]
pub enum Test {
    /// A built-in constraint.
    BuiltIn(Builtin),
    /// The rule of data of that number.
    Rule(u32),
    /// The rule of objects of that number.
    ObjectRule(u32),
    /// Nothing: the constraint is only composed of others.
    Nothing,
}

/// A constraint in a tree of constraints.
#[derive(Drop)]
pub struct Node {
    pub constraint: String,
    /// The attributes in effect.
    pub attributes: Attrs,
    pub test: Test,
    /// Whether the constraint reports as one.
    pub single: bool,
    pub message: String,
    /// How many nodes stand below it.
    pub below: usize,
}

impl Node {
    /// The constraint's name.
    pub fn constraint(&self) -> &str
        ensures { result.now ≡ (node_view self.now).constraint }
    {
        self.constraint.as_str()
    }

    /// The message.
    pub fn message(&self) -> &str
        ensures { result.now ≡ (node_view self.now).message }
    {
        self.message.as_str()
    }
}
