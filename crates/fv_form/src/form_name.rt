/// The forms that a value can be asked to have, by what stands there in declarations or in a command.
#[derive(Clone, Copy, Debug, PartialEq, Eq)]
pub enum FormName {
    /// The declarations as a whole.
    Declarations,
    Types,
    Type,
    Fields,
    Forms,
    Form,
    Groups,
    Group,
    /// The groups of a sequence, at least one.
    Sequence,
    Definitions,
    /// A declared constraint.
    Definition,
    Attributes,
    Attribute,
    /// The kind of an attribute.
    AttributeKind,
    Rule,
    Compose,
    Composing,
    Override,
    Messages,
    Place,
    /// What a place holds.
    Held,
    Uses,
    Use,
    /// The attributes that are given to a constraint.
    With,
    /// An attribute's value.
    Value,
    Convert,
    Names,
    Text,
    Flag,
    /// A command, its bundle included.
    Command,
    /// The name of a command.
    CommandName,
    /// A part of a batch.
    Part,
    /// The name of a part.
    PartName,
    Parts,
    /// The groups that a check asks for.
    AskedGroups,
    Id,
    Limit,
    Bundle,
    /// The objects of a bundle.
    Objects,
    Object,
    /// The fields that an object gives.
    Given,
    /// Any value.
    Any,
}
