ghost use Rattle.std.specs.Prelude.{◌≡◌, option_map, map};
ghost use Rattle.fv_datum.specs.Attributes.{attribute_view, entry_view};
ghost use Rattle.fv_datum.specs.Lookup.{at_name};

use std::collections::BTreeMap;
use std::marker::Model;

/// The value of a constraint's attribute.
#[derive(Drop)]
pub enum Attribute {
    Integer(i64),
    Text(String),
    Boolean(bool),
    Texts(Vec<String>),
}

/// Attributes by name.
#[derive(Drop)]
pub struct Attrs {
    entries: BTreeMap<String, Attribute>,
}

impl Model for Attrs {
    ghost use Rattle.std.specs.Prelude.{ℕ, List, map};
    ghost use Rattle.fv_datum.specs.Attributes.{AttributeValue, entry_view};

    ghost Value = { List (List ℕ × AttributeValue) };

    ghost view = { λ a. map entry_view a.entries.entries };
}

impl Attrs {
    /// The attributes of a map.
    pub fn new(entries: BTreeMap<String, Attribute>) -> Attrs
        ensures { result ≡ map entry_view entries.entries }
    {
        Attrs { entries }
    }

    /// The value of the attribute of that name.
    pub fn find(&self, name: &str) -> Option<&Attribute>
        ensures { option_map (λ a. attribute_view a.now) result ≡ at_name name.now self.now }
    {
        self.entries.get(name)
    }

    /// The map.
    pub fn entries(&self) -> &BTreeMap<String, Attribute>
        ensures { self.now ≡ map entry_view result.now.entries }
    {
        &self.entries
    }
}
