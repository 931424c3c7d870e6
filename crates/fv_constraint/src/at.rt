/// Where composed constraints have a fault, by numbers from 0: definitions, attributes and
/// overrides in the order of their maps, composing constraints and uses in that of their lists.
#[derive(Clone, Copy, Debug, PartialEq, Eq)]
pub enum ConstraintAt {
    /// A definition.
    Definition(usize),
    /// A definition, and which of its attributes, whose default is at fault.
    Default(usize, usize),
    /// A definition, and which of its composing constraints.
    Composing(usize, usize),
    /// A definition, which of its composing constraints, and which of the attributes given to this.
    Given(usize, usize, usize),
    /// A definition, which of its composing constraints, and which of the overrides of this.
    Overridden(usize, usize, usize),
    /// A definition, which of its composing constraints, and which attribute of the constraint of
    /// that name is neither given nor overridden: among those that a built-in one requires, or
    /// among all those of a declared one.
    Lacking(usize, usize, usize),
    /// A use, and which constraint of its tree in preorder, the used one the first.
    Node(usize, usize),
}
