ghost use Rattle.std.specs.Prelude.{◌≡◌, [], ◌∷◌, ◌++◌, map, IfOk, OnOk, OnErr, MatchOption, string_bytes};
ghost use Rattle.fv_path.specs.Paths.{is_path, IsPath};
ghost use Rattle.fv_path.specs.Texts.{path_text_of};
ghost use Rattle.fv_path.specs.Views.{node_view};

use crate::laws::node_is_sound;
use crate::node::Node;
use std::alloc::{AllocError, Global};
use std::marker::Model;

/// The nodes from an object to where in it a violation stands. The first is a field; a field follows
/// a field, an index or a key; an index or a key follows a field, a list element or a map value; a
/// list element follows an index; a map key or a map value follows a key. A path may have no nodes.
#[derive(Debug, Drop)]
pub struct Path {
    nodes: Vec<Node>,
}

impl Model for Path {
    ghost use Rattle.std.specs.Prelude.{List, map};
    ghost use Rattle.fv_path.specs.Nodes.{PathNode};
    ghost use Rattle.fv_path.specs.Paths.{IsPath};
    ghost use Rattle.fv_path.specs.Views.{node_view};

    ghost Value = { List PathNode };

    ghost view = { λ p. map node_view p.nodes.items };

    ghost invariant = { λ p. IsPath (map node_view p.nodes.items) };
}

impl Path {
    /// The path without nodes. It takes no memory.
    pub fn new(alloc: Global) -> Path
        ensures { result ≡ [] }
    {
        Path {
            nodes: Vec::new(alloc),
        }
    }

    /// The path's nodes, from the first on.
    pub fn nodes(&self) -> &[Node]
        ensures nodes { map node_view result.now ≡ self.now }
        ensures path { IsPath self.now }
    {
        self.nodes.as_slice()
    }

    /// Whether the nodes and one more behind them are a path.
    pub fn can_push(&self, node: &Node) -> bool
        ensures { result ≡ is_path (self.now ++ node_view node.now ∷ []) }
    {
        node_is_sound(node);
        node.may_stand(self.nodes.last())
    }

    /// Adds a node that `can_push` tells may stand there. Where memory is refused the node is dropped,
    /// and the path is as it was.
    pub fn push(&mut self, node: Node) -> Result<(), AllocError>
        requires { IsPath (self.old ++ node_view node ∷ []) }
        ensures ok { OnOk result (self.new ≡ self.old ++ node_view node ∷ []) }
        ensures err { OnErr result (self.new ≡ self.old) }
    {
        self.nodes.push(node)?;
        Ok(())
    }

    /// Takes the last node off: none where there is none.
    pub fn pop(&mut self) -> Option<Node>
        ensures { MatchOption result ((self.old ≡ []) × (self.new ≡ [])) (λ n. self.old ≡ self.new ++ node_view n ∷ []) }
    {
        self.nodes.pop()
    }

    /// The path's text.
    ///
    /// A field is its name, behind a dot unless it is first; an index is its decimal digits in
    /// brackets; a key is its compact JSON string in brackets; the others are `.<list element>`,
    /// `.<map key>` and `.<map value>`. No two paths have one text.
    pub fn write(&self, alloc: Global) -> Result<String, AllocError>
        ensures { IfOk result (λ s. string_bytes s ≡ path_text_of self.now) }
    {
        let mut text = String::new(alloc);
        let Some((first, others)) = self.nodes.split_first() else {
            return Ok(text);
        };
        if let Node::Field(name) = first {
            text.push_str(name.as_str())?;
        }
        for node in others {
            node.write_to(alloc, &mut text)?;
        }
        Ok(text)
    }
}
