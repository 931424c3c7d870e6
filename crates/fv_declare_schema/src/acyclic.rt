//! Graphs without cycles.
ghost use Rattle.std.specs.Prelude.{◌≡◌, length, IfOk, MatchOption};
ghost use Rattle.fv_graph.specs.Graph.{next_of, AreWithin, IsCyclic};
ghost use Rattle.fv_graph.specs.Recursion.{value};
ghost use Rattle.fv_declare_schema.specs.Groups.{ranked};
ghost use Rattle.fv_declare_schema.specs.Marked.{flag_of, AreReaching};

use crate::declared::GroupId;
use crate::groups::Ranking;
use crate::marking::{Marking, only};
use fv_graph::{order, table};
use std::alloc::{AllocError, Global};
use std::marker::Model;

/// A graph without cycles, with its nodes in an order in which each comes after all that its edges
/// lead to. Contracts see it as the lists of those that the nodes' edges lead to.
#[derive(Drop)]
pub(crate) struct Acyclic {
    edges: Vec<Vec<usize>>,
    order: Vec<usize>,
}

impl Model for Acyclic {
    ghost use Rattle.std.specs.Prelude.{ℕ, List, Vec};
    ghost use Rattle.std.specs.declared.alloc.Global.{Global as Memory};
    ghost use Rattle.fv_declare_schema.specs.Marked.{IsAcyclic};

    ghost Value = { List (Vec ℕ Memory) };

    ghost view = { λ g. g.edges.items };

    ghost invariant = { λ g. IsAcyclic g.edges.items g.order.items };
}

impl Acyclic {
    ghost use Rattle.fv_declare_schema.specs.Tables.{AreInheriting, AreRanks};

    /// The graph in which each node has a list of those that its edges lead to; `None` where some
    /// node leads to itself.
    pub(crate) fn new(alloc: Global, edges: Vec<Vec<usize>>) -> Result<Option<Acyclic>, AllocError>
        requires { AreWithin edges.items }
        ensures { IfOk result (λ found.
            MatchOption found (IsCyclic (next_of edges.items)) (λ g. (g ≡ edges.items) × (IsCyclic (next_of edges.items) → ⊥))) }
    {
        let Some(order) = order(alloc, &edges)? else {
            return Ok(None);
        };
        Ok(Some(Acyclic { edges, order }))
    }

    /// Which nodes are marked ones, or lead to one.
    pub(crate) fn reaching(&self, alloc: Global, marked: &[bool]) -> Result<Vec<bool>, AllocError>
        requires { length marked.now ≡ length self.now }
        ensures within { AreWithin self.now }
        ensures flags { IfOk result (λ flags.
            AreReaching (next_of self.now) (length self.now) marked.now flags.items) }
    {
        let marking = Marking {
            edges: &self.edges,
            marked,
        };
        table(alloc, &marking, self.edges.len(), &self.order)
    }

    /// For each node a row that tells which nodes are it or lead to it.
    pub(crate) fn leading(&self, alloc: Global) -> Result<Vec<Vec<bool>>, AllocError>
        ensures { IfOk result (λ rows.
            AreInheriting (next_of self.now) (length self.now) rows.items) }
    {
        let mut rows = Vec::new(alloc);
        for node in 0..self.edges.len() {
            let marked = only(alloc, self.edges.len(), node)?;
            rows.push(self.reaching(alloc, &marked)?)?;
        }
        Ok(rows)
    }

    /// For each node the nodes that it stands for, where those that `sequences` marks stand for what
    /// their edges lead to.
    pub(crate) fn ranks(
        &self,
        alloc: Global,
        sequences: &[bool],
    ) -> Result<Vec<Vec<GroupId>>, AllocError>
        requires { length sequences.now ≡ length self.now }
        ensures { IfOk result (λ rows.
            AreRanks (value (ranked (flag_of sequences.now)) (next_of self.now) (length self.now))
            (length self.now) rows.items) }
    {
        let ranking = Ranking {
            edges: &self.edges,
            sequences,
        };
        table(alloc, &ranking, self.edges.len(), &self.order)
    }
}
