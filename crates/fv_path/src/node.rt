ghost use Rattle.std.specs.Prelude.{◌≡◌, ◌++◌, true, OnOk, option_map, string_bytes};
ghost use Rattle.fv_path.specs.Nodes.{is_node};
ghost use Rattle.fv_path.specs.Paths.{may_stand};
ghost use Rattle.fv_path.specs.Texts.{node_text};
ghost use Rattle.fv_path.specs.Views.{node_view};

use crate::key::json_string;
use fv_datum::Name;
use std::alloc::{AllocError, Global};

/// One step of a property path (Jakarta Bean Validation 3.0, "ConstraintViolation").
#[derive(Debug, Drop)]
pub enum Node {
    /// A field, by its name.
    Field(Name),
    /// A place in a list, counted from 0.
    Index(u32),
    /// A key of a map.
    Key(String),
    /// The element of a list at the index before it.
    ListElement,
    /// The key of a map that stands before it, as a value of its own.
    MapKey,
    /// The value of a map at the key before it.
    MapValue,
}

impl Node {
    /// Whether the node may stand behind the last node of a path, or begin a path without nodes.
    pub(crate) fn may_stand(&self, last: Option<&Node>) -> bool
        ensures { result ≡ may_stand (option_map (λ n. node_view n.now) last.entry) (node_view self.now) }
    {
        match self {
            Node::Field(_) => match last {
                None => true,
                Some(last) => matches!(last, Node::Field(_) | Node::Index(_) | Node::Key(_)),
            },
            Node::Index(_) | Node::Key(_) => {
                matches!(
                    last,
                    Some(Node::Field(_) | Node::ListElement | Node::MapValue)
                )
            }
            Node::ListElement => matches!(last, Some(Node::Index(_))),
            Node::MapKey | Node::MapValue => matches!(last, Some(Node::Key(_))),
        }
    }

    /// Writes the node's text behind what is written: a field has its dot.
    pub(crate) fn write_to(&self, alloc: Global, text: &mut String) -> Result<(), AllocError>
        ensures { OnOk result (string_bytes text.new ≡ string_bytes text.old ++ node_text (node_view self.now)) }
    {
        match self {
            Node::Field(name) => {
                text.push('.')?;
                text.push_str(name.as_str())
            }
            Node::Index(index) => write!(text, "[{index}]"),
            Node::Key(key) => {
                text.push('[')?;
                text.push_str(json_string(alloc, key.as_str())?.as_str())?;
                text.push(']')
            }
            Node::ListElement => text.push_str(".<list element>"),
            Node::MapKey => text.push_str(".<map key>"),
            Node::MapValue => text.push_str(".<map value>"),
        }
    }
}
