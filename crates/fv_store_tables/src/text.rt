//! The texts of an object that is written.
ghost use Rattle.std.specs.Prelude.{IsUtf8};

/// What the row of an object shall keep beside its record's id: its name, its type's name, and its fields' text.
#[derive(Debug, Drop)]
pub struct ObjectText<'a> {
    pub name: &'a str,
    pub kind: &'a str,
    pub fields: String,
    pub ghost name_text: { ∥ IsUtf8 name.now ∥₁ },
    pub ghost kind_text: { ∥ IsUtf8 kind.now ∥₁ },
}
