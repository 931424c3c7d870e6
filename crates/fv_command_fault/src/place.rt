/// What a command names and isn't there, in the words of its refusal.
#[derive(Clone, Copy, Debug, PartialEq, Eq)]
pub enum Absence {
    /// C4: a form isn't declared.
    Form,
    /// C6: there is no record at an id.
    Record,
    /// C7: a group isn't declared.
    Group,
    /// C8: a record has no such object, or a type isn't declared or has no such field.
    Field,
}

/// The member of a command, or of a part of a batch, that names what isn't there.
#[derive(Clone, Copy, Debug, PartialEq, Eq)]
pub enum CommandPlace {
    /// The member `form`.
    Form,
    /// The member `id`.
    Id,
    /// The name of that number in the member `groups`.
    Group(usize),
    /// The member `type`.
    Type,
    /// The member `object`.
    Object,
    /// The member `field`.
    Field,
}
