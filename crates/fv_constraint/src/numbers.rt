//! Definitions as the nodes of a graph: a node for each, in order, and one more for all built-in
//! constraints.
ghost use Rattle.std.specs.Prelude.{◌≡◌, IfOk, map};
ghost use Rattle.fv_declare_definition.specs.DefinitionViews.{composing_view, definition_entry};
ghost use Rattle.fv_constraint.specs.Numbered.{number_of, numbers_of, edges_of, placed, place_entry};

use fv_builtin::is_builtin;
use fv_declare_definition::{Composing, Definition};
use std::alloc::{AllocError, Global};
use std::collections::BTreeMap;
use std::marker::Model;

/// Definitions with the place of each among them, by names. Contracts see them as the definitions.
#[derive(Drop)]
pub(crate) struct Numbers<'a> {
    definitions: &'a BTreeMap<String, Definition>,
    places: BTreeMap<&'a str, usize>,
}

impl<'a> Model for Numbers<'a> {
    ghost use Rattle.std.specs.Prelude.{◌≡◌, map};
    ghost use Rattle.fv_declare_definition.specs.Definitions.{Definitions};
    ghost use Rattle.fv_declare_definition.specs.DefinitionViews.{definition_entry};
    ghost use Rattle.fv_constraint.specs.Numbered.{placed, place_entry};

    ghost Value = { Definitions };

    ghost view = { λ n. map definition_entry n.definitions.now.entries };

    ghost invariant = { λ n. map place_entry n.places.entries
        ≡ placed 0 (map definition_entry n.definitions.now.entries) };
}

impl<'a> Numbers<'a> {
    /// The definitions, numbered.
    pub(crate) fn new(
        alloc: Global,
        definitions: &'a BTreeMap<String, Definition>,
    ) -> Result<Numbers<'a>, AllocError>
        ensures { IfOk result (λ n. n ≡ map definition_entry definitions.now.entries) }
    {
        let places = places_of(alloc, definitions)?;
        Ok(Numbers {
            definitions,
            places,
        })
    }

    /// The definitions.
    pub(crate) fn definitions(&self) -> &'a BTreeMap<String, Definition>
        ensures { map definition_entry result.now.entries ≡ self.now }
    {
        self.definitions
    }

    /// The node of a constraint: the place of its definition, and the number of definitions where
    /// it is built in or not declared.
    pub(crate) fn number_of(&self, name: &str) -> usize
        ensures { result ≡ number_of self.now name.now }
    {
        let count = self.definitions.len();
        if is_builtin(name) {
            return count;
        }
        match self.places.get(name) {
            Some(place) => *place,
            None => count,
        }
    }
}

/// The place of each definition among them all, by its name.
fn places_of<'a>(
    alloc: Global,
    definitions: &'a BTreeMap<String, Definition>,
) -> Result<BTreeMap<&'a str, usize>, AllocError>
    ensures { IfOk result (λ places. map place_entry places.entries ≡ placed 0 (map definition_entry definitions.now.entries)) }
{
    let mut places = BTreeMap::new(alloc);
    let mut place = 0;
    for (name, _) in definitions.iter() {
        let _ = places.insert(name.as_str(), place)?;
        place += 1;
    }
    Ok(places)
}

/// The nodes of composing constraints.
fn numbers_of(
    alloc: Global,
    numbers: &Numbers,
    composing: &[Composing],
) -> Result<Vec<usize>, AllocError>
    ensures { IfOk result (λ nodes. nodes.items ≡ numbers_of numbers.now (map composing_view composing.now)) }
{
    let mut nodes = Vec::with_capacity(alloc, composing.len())?;
    for constraint in composing {
        nodes.push(numbers.number_of(constraint.constraint.as_str()))?;
    }
    Ok(nodes)
}

/// The nodes that each node's edges lead to: the definitions in order, and one more.
pub(crate) fn edges_of(alloc: Global, numbers: &Numbers) -> Result<Vec<Vec<usize>>, AllocError>
    ensures { IfOk result (λ edges. map (λ nodes. nodes.items) edges.items ≡ edges_of numbers.now) }
{
    let mut edges = Vec::new(alloc);
    for (_, definition) in numbers.definitions().iter() {
        edges.push(numbers_of(alloc, numbers, &definition.composing)?)?;
    }
    edges.push(Vec::new(alloc))?;
    Ok(edges)
}
