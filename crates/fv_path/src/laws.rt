//! What holds of all nodes and paths: functions that do nothing, and whose contracts a caller's proof
//! may cite.
ghost use Rattle.std.specs.Prelude.{◌≡◌, true};
ghost use Rattle.fv_path.specs.Nodes.{is_node};
ghost use Rattle.fv_path.specs.Texts.{path_text_of};
ghost use Rattle.fv_path.specs.Views.{node_view};

use crate::node::Node;
use crate::path::Path;

/// A field has a name, an index 32 bits, and a key is UTF-8.
pub(crate) fn node_is_sound(node: &Node)
    ensures { is_node (node_view node.now) ≡ true }
{
    match node {
        Node::Field(name) => {
            let _name = name.as_str();
        }
        Node::Index(index) => {
            let _index = *index;
        }
        Node::Key(key) => {
            let _key = key.as_str();
        }
        Node::ListElement | Node::MapKey | Node::MapValue => {}
    }
}

/// Two paths with one text are equal.
pub fn text_is_injective(left: &Path, right: &Path)
    ensures { path_text_of left.now ≡ path_text_of right.now → left.now ≡ right.now }
{
    let _left = left.nodes();
    let _right = right.nodes();
}
