use fv_constraint_tree::Target;
use fv_datum::Attrs;

/// A use of a constraint.
#[derive(Clone, Copy)]
pub struct Use<'a> {
    pub constraint: &'a str,
    /// The template of its message, if it has one of its own.
    pub message: Option<&'a str>,
    /// The attributes that are given.
    pub given: &'a Attrs,
    pub place: Target,
}
