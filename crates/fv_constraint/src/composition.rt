//! Constraints composed of others, by their definitions.
ghost use Rattle.std.specs.Prelude.{◌≡◌, ℕ, List, Option, true, false, map, min, option_map, is_some, IfOk, MatchOption};
ghost use Rattle.fv_datum.specs.Attributes.{Attributes};
ghost use Rattle.fv_constraint.specs.Composed.{IsTreeOf, ComposesItself};
ghost use Rattle.fv_constraint.specs.Composed as spec;
ghost use Rattle.fv_constraint.specs.PlannedViews.{planned_entry};
ghost use Rattle.fv_constraint.specs.Meanings.{composes_unknown, meant_by};
ghost use Rattle.fv_declare_definition.specs.DefinitionViews.{definition_entry};
ghost use Rattle.fv_constraint_tree.specs.Preorder.{preorder};
ghost use Rattle.fv_constraint_tree.specs.Trees.{Tree, size};

use crate::copying::copy_entries;
use crate::meant::meant_by;
use crate::numbers::{Numbers, edges_of};
use crate::planning::{Handing, Planned};
use fv_datum::Attrs;
use fv_declare_definition::Definition;
use fv_graph::{Spot, preorder, weigh_all};
use std::alloc::{AllocError, Global};
use std::collections::BTreeMap;
use std::marker::Model;

/// Where the counting of a tree's nodes stops.
const MOST: usize = 1025;

/// Definitions in which no constraint is composed of itself. Contracts see them as the definitions.
#[derive(Drop)]
pub struct Composition<'a> {
    numbers: Numbers<'a>,
    edges: Vec<Vec<usize>>,
    sizes: Vec<usize>,
}

impl<'a> Model for Composition<'a> {
    ghost use Rattle.std.specs.Prelude.{map};
    ghost use Rattle.fv_declare_definition.specs.Definitions.{Definitions};
    ghost use Rattle.fv_constraint.specs.Numbered.{IsNumbered};

    ghost Value = { Definitions };

    ghost view = { λ c. c.numbers };

    ghost invariant = { λ c. IsNumbered c.numbers (map (λ nodes. nodes.items) c.edges.items) c.sizes.items };
}

impl<'a> Composition<'a> {
    /// The composition of definitions, of whose composing constraints each is built in or declared;
    /// `None` where a constraint is composed of itself, directly or through others.
    pub fn new(
        alloc: Global,
        definitions: &'a BTreeMap<String, Definition>,
    ) -> Result<Option<Composition<'a>>, AllocError>
        requires { composes_unknown (map definition_entry definitions.now.entries) ≡ false }
        ensures { let ds = map definition_entry definitions.now.entries in IfOk result (λ found.
            MatchOption found (ComposesItself ds) (λ c. (c ≡ ds) × (ComposesItself ds → ⊥))) }
    {
        let numbers = Numbers::new(alloc, definitions)?;
        let edges = edges_of(alloc, &numbers)?;
        let own = vec![in alloc; 1; edges.len()]?;
        let Some(sizes) = weigh_all(alloc, &edges, &own, MOST)? else {
            return Ok(None);
        };
        Ok(Some(Composition {
            numbers,
            edges,
            sizes,
        }))
    }

    /// The definitions.
    pub fn definitions(&self) -> &'a BTreeMap<String, Definition>
        ensures { map definition_entry result.now.entries ≡ self.now }
    {
        self.numbers.definitions()
    }

    /// How many nodes the tree of a constraint has, whatever its message and whatever attributes it is
    /// given, but no more than 1,025. No tree is made.
    pub fn size_of(&self, name: &str) -> usize
        requires { is_some (meant_by self.now name.now) ≡ true }
        ensures size { (own : Option (List ℕ)) (given : Attributes) (t : Tree spec.Planned) → IsTreeOf self.now name.now own given t
            → result ≡ min 1025 (size t) }
        ensures tree { (own : Option (List ℕ)) (given : Attributes) → ((t : Tree spec.Planned) × IsTreeOf self.now name.now own given t) }
    {
        self.sizes[self.numbers.number_of(name)]
    }

    /// The tree of a constraint with its own message, if it has one, and the attributes that it is
    /// given, in preorder.
    pub fn plan(
        &self,
        alloc: Global,
        name: &'a str,
        own: Option<&'a str>,
        given: &Attrs,
    ) -> Result<Vec<Spot<Planned<'a>>>, AllocError>
        requires { is_some (meant_by self.now name.now) ≡ true }
        ensures { IfOk result (λ spots. (t : Tree spec.Planned) × IsTreeOf self.now name.now (option_map (λ o. o.now) own.entry) given.now t
            × (map planned_entry spots.items ≡ preorder t)) }
    {
        let definitions = self.numbers.definitions();
        let Some(meant) = meant_by(definitions, name) else {
            unreachable!()
        };
        let root = Planned {
            constraint: name,
            meant,
            own,
            with: Attrs::new(copy_entries(alloc, given.entries())?),
        };
        let handing = Handing { definitions };
        preorder(
            alloc,
            &self.edges,
            &handing,
            self.numbers.number_of(name),
            root,
        )
    }
}
