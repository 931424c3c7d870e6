use crate::form_name::FormName;
use std::alloc::AllocError;

/// One step inwards.
#[derive(Clone, Copy, Debug, PartialEq, Eq)]
pub enum Inward<'a> {
    /// To an item of an array by its index, from 0.
    Item(usize),
    /// To the value of a member.
    Member(&'a str),
}

/// What is wrong with a value.
#[derive(Clone, Copy, Debug, PartialEq, Eq)]
pub enum Flaw {
    /// It is not of the form.
    Misfit,
    /// It has no business there.
    Stranger,
    /// It lacks the member of that name.
    Lacking(&'static str),
}

/// Where a value isn't of a form.
#[derive(Drop)]
pub struct FormFault<'a> {
    /// The steps to the place, the innermost first.
    pub steps: Vec<Inward<'a>>,
    pub flaw: Flaw,
    /// The form that is asked there, or, of what has no business there, that of the object around it.
    pub form: FormName,
}

/// The first place where a value isn't of a form, if there is one.
pub type Sought<'a> = Result<Option<FormFault<'a>>, AllocError>;
