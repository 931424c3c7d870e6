use fv_datum::{Attribute, AttributeKind, Attrs};
use std::collections::BTreeMap;

/// The number of a rule.
#[derive(Clone, Copy, Debug, PartialEq, Eq)]
pub enum Rule {
    /// Of data.
    Data(u32),
    /// Of objects.
    Objects(u32),
}

/// An attribute of a declared constraint.
#[derive(Drop)]
pub struct AttributeDefinition {
    pub kind: AttributeKind,
    pub default: Option<Attribute>,
}

/// A composing constraint: one that a declared constraint is composed of.
#[derive(Drop)]
pub struct Composing {
    pub constraint: String,
    /// The attributes that are given to it.
    pub with: Attrs,
    /// The attributes of it that are overridden, each with the attribute of the composed constraint
    /// whose value it takes.
    pub overrides: BTreeMap<String, String>,
    /// The template of its message, if it has one of its own.
    pub message: Option<String>,
}

/// A declared constraint.
#[derive(Drop)]
pub struct Definition {
    pub attributes: BTreeMap<String, AttributeDefinition>,
    pub rule: Option<Rule>,
    /// The constraints that it is composed of, in order.
    pub composing: Vec<Composing>,
    /// Whether it reports as one.
    pub single: bool,
    /// The template of its message, if the declaration gives one.
    pub message: Option<String>,
}
