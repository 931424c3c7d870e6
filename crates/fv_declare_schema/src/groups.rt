//! Groups with what each inherits and stands for.
ghost use Rattle.std.specs.Prelude.{◌≡◌, ◌<◌, ◌↔◌, false, length, option_map, All, IsTrue, IfOk, IfSome, MatchResult, ◌++◌, List, ℕ, OnOk};
ghost use Rattle.fv_declare_schema.specs.GroupViews.{declared_view};
ghost use Rattle.fv_declare_schema.specs.Groups.{all_groups, group_number, name_at, is_sequence, inherit_next, member_next, Inherits, ranks, ranked};
ghost use Rattle.fv_declare_schema.specs.Judged.{AreSound, IsFault, are_too_large};
ghost use Rattle.fv_graph.specs.Graph.{mem, next_of};
ghost use Rattle.fv_graph.specs.Recursion.{value};
ghost use Rattle.fv_declare_schema.specs.Marked.{flag_of};
ghost use Rattle.fv_declare_schema.specs.Once.{once};
ghost use Rattle.fv_declare_schema.specs.Tables.{indices};

use crate::acyclic::Acyclic;
use crate::declared::{DeclaredGroups, GroupId};
use crate::draft::GroupDraft;
use crate::fault::GroupFault;
use crate::graph::GroupGraph;
use crate::marking::at;
use fv_graph::Combine;
use indexmap::IndexMap;
use std::alloc::{AllocError, Global};
use std::marker::Model;

/// Groups, with tables of those that inherit each and of the plain groups that each stands for.
/// Contracts see them as the groups by their names, `Default` first.
#[derive(Drop)]
pub struct Groups {
    groups: DeclaredGroups,
    inheriting: Vec<Vec<bool>>,
    ranking: Vec<Vec<GroupId>>,
}

impl Model for Groups {
    ghost use Rattle.fv_declare_schema.specs.Groups as spec;

    ghost Value = { spec.Groups };

    ghost use Rattle.fv_declare_schema.specs.Tables.{IsTable};

    ghost view = { λ g. g.groups };

    ghost invariant = { λ g. IsTable g.groups g.inheriting.items g.ranking.items };
}

impl Groups {
    ghost use Rattle.fv_declare_schema.specs.Tables.{AreEdges, indices};

    /// The groups of a map from names to declarations, and `Default`.
    ///
    /// Refused by `UnknownGroup` for a name that is no group's, else by `CyclicInheritance` where a
    /// group inherits itself, else by `CyclicSequence` where a sequence contains itself, directly or
    /// through others, else by `SequenceMisused` where a group inherits a sequence, else by `TooLarge`
    /// for more than 256 groups, or more than 32 that one inherits directly or that are members of
    /// one; `Memory` at any place.
    pub fn build(
        alloc: Global,
        declared: IndexMap<String, GroupDraft>,
    ) -> Result<Groups, GroupFault>
        ensures { let gs = all_groups (declared_view declared) in
            MatchResult result (λ g. (g ≡ gs) × AreSound gs × (are_too_large gs ≡ false)) (IsFault gs) }
    {
        match GroupGraph::new(alloc, declared) {
            Ok(graph) => graph.finish(alloc),
            Err(placed) => Err(placed.fault),
        }
    }

    /// The groups with their tables.
    pub(crate) fn new(
        alloc: Global,
        groups: DeclaredGroups,
        inheritance: &Acyclic,
        expansion: &Acyclic,
    ) -> Result<Groups, AllocError>
        requires sound { AreSound groups }
        requires small { are_too_large groups ≡ false }
        requires inheritance { AreEdges (inherit_next groups) (length groups) inheritance.now }
        requires expansion { AreEdges (member_next groups) (length groups) expansion.now }
        ensures { IfOk result (λ g. g ≡ groups) }
    {
        let inheriting = inheritance.leading(alloc)?;
        let sequences = groups.sequences(alloc)?;
        let ranking = expansion.ranks(alloc, &sequences)?;
        Ok(Groups {
            groups,
            inheriting,
            ranking,
        })
    }

    /// How many groups there are.
    pub fn count(&self) -> usize
        ensures { result ≡ length self.now }
    {
        self.groups.count()
    }

    /// The number of the group of that name.
    pub fn find(&self, name: &str) -> Option<GroupId>
        ensures number { option_map (λ g. g.index) result ≡ group_number self.now name.now }
        ensures within { IfSome result (λ g. g.index < length self.now) }
    {
        self.groups.find(name)
    }

    /// The name of a group; empty where no group has the number.
    pub fn name(&self, group: GroupId) -> &str
        ensures { result.now ≡ name_at self.now group.index }
    {
        self.groups.name(group)
    }

    /// Whether a group is a sequence.
    pub fn is_sequence(&self, group: GroupId) -> bool
        ensures { result ≡ is_sequence self.now group.index }
    {
        self.groups.is_sequence(group)
    }

    /// Whether `group` is `other` or inherits it, directly or through others.
    pub fn inherits(&self, group: GroupId, other: GroupId) -> bool
        requires group { group.index < length self.now }
        requires other { other.index < length self.now }
        ensures { IsTrue result ↔ Inherits self.now group.index other.index }
    {
        self.inheriting[other.index][group.index]
    }

    /// The plain groups that a group stands for, in order: a plain group itself alone, a sequence what
    /// its members stand for, a repeat after the first dropped.
    pub fn ranks(&self, group: GroupId) -> &[GroupId]
        requires { group.index < length self.now }
        ensures ranks { indices result.now ≡ ranks self.now group.index }
        ensures within { All (λ r. r.index < length self.now) result.now }
        ensures plain { All (λ r. is_sequence self.now r.index ≡ false) result.now }
    {
        &self.ranking[group.index]
    }
}

/// Expands sequences: a plain group stands for itself, and a sequence for what its members stand for,
/// a repeat after the first dropped.
#[derive(Drop)]
pub(crate) struct Ranking<'a> {
    pub(crate) edges: &'a [Vec<usize>],
    pub(crate) sequences: &'a [bool],
    ghost each: { length sequences.now ≡ length edges.now },
}

impl Combine for Ranking<'_> {
    type Value = Vec<GroupId>;

    ghost use Rattle.fv_declare_schema.specs.Tables.{indices};

    ghost next = { λ s. next_of s.edges.now };

    ghost count = { λ s. length s.edges.now };

    ghost is_right = { λ s i made. indices made.items ≡ value (ranked (flag_of s.sequences.now)) (next_of s.edges.now) (length s.edges.now) i };

    fn blank(&self, alloc: Global) -> Result<Vec<GroupId>, AllocError> {
        Ok(Vec::new(alloc))
    }

    fn combine(
        &self,
        alloc: Global,
        node: usize,
        table: &[Vec<GroupId>],
    ) -> Result<Vec<GroupId>, AllocError> {
        let mut ranks = Vec::new(alloc);
        if !self.sequences[node] {
            ranks.push(GroupId { index: node })?;
            return Ok(ranks);
        }
        for next in &self.edges[node] {
            add_new(&mut ranks, at(table, *next))?;
        }
        Ok(ranks)
    }
}

/// Whether a group is among these.
fn has(groups: &[GroupId], group: GroupId) -> bool
    ensures { result ≡ mem (indices groups.now) group.index }
{
    for other in groups {
        if other.index == group.index {
            return true;
        }
    }
    false
}

/// Adds each of `more` that isn't there yet, in order.
pub fn add_new(groups: &mut Vec<GroupId>, more: &[GroupId]) -> Result<(), AllocError>
    ensures { OnOk result ((xs : List ℕ) → indices groups.old.items ≡ once xs
        → indices groups.new.items ≡ once (xs ++ indices more.now)) }
{
    for group in more {
        if !has(groups, *group) {
            groups.push(*group)?;
        }
    }
    Ok(())
}
