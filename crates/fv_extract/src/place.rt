//! Where something stands in an object, and which part of it that is.

/// One step into a datum.
#[derive(Clone, Copy, Debug, PartialEq, Eq)]
pub enum Step {
    /// To each element of a list.
    Element,
    /// To each key of a map.
    Key,
    /// To each value of a map.
    Value,
    /// To the content of an optional.
    Content,
}

/// A place in the objects of a type: a field, and steps into its datum.
#[derive(Clone, Copy, Debug)]
pub struct Place<'a> {
    /// The field's number in its type.
    pub field: usize,
    pub steps: &'a [Step],
}

/// Which part of a container.
#[derive(Clone, Copy, Debug, PartialEq, Eq)]
pub enum Part<'a> {
    /// An element of a list by its index, from 0.
    Index(usize),
    /// An entry of a map by its key.
    Key(&'a str),
}

/// Which part of a field's datum: the indices and keys on the way to it.
pub type Locus<'a> = Vec<Part<'a>>;
