use crate::form_name::FormName;

/// A member of an object: its name, whether it has to be there, and its form.
#[derive(Clone, Copy)]
pub struct Entry {
    pub name: &'static str,
    pub required: bool,
    pub form: FormName,
}

/// What is asked of a value.
#[derive(Drop)]
pub enum ValueForm {
    /// Nothing more.
    Fits,
    /// What it can't be.
    Unfit,
    /// An array whose items are of a form.
    Items(FormName),
    /// An object whose members are of a form.
    Members(FormName),
    /// An object with these members and no others.
    Object(&'static [Entry]),
}
