//! Declared groups before their limits are asked.
ghost use Rattle.std.specs.Prelude.{◌≡◌, ◌<◌, ◌↔◌, ◌≢◌, true, false, length, option_map, IsTrue, IfErr, IfOk, IfSome, MatchResult};
ghost use mathlib.Core.Logic.{◌⊎◌};
ghost use Rattle.fv_graph.specs.Graph.{next_of};
ghost use Rattle.fv_declare_schema.specs.GroupViews.{declared_view};
ghost use Rattle.fv_declare_schema.specs.Groups.{all_groups, group_number, is_sequence, MeetsDefault};
ghost use Rattle.fv_declare_schema.specs.Judged.{AreSound, IsFault, are_too_large};
ghost use Rattle.fv_declare_schema.specs.Whereabouts.{IsAt, passed_limit};
ghost use Rattle.fv_declare_schema.specs.Marked.{AreMeetingIn};
ghost use Rattle.fv_declare_schema.specs.declared.fault.GroupFault.TheVariants.{TooLarge, Memory};

use crate::acyclic::Acyclic;
use crate::declared::{DeclaredGroups, GroupId};
use crate::draft::GroupDraft;
use crate::fault::{GroupFault, GroupLimit, PlacedGroupFault};
use crate::groups::Groups;
use crate::marking::only;
use indexmap::IndexMap;
use std::alloc::{AllocError, Global};
use std::marker::Model;

/// Declared groups, whose names are all known and which have no cycles, in whatever number. Contracts
/// see them as the groups by their names, `Default` first.
#[derive(Drop)]
pub struct GroupGraph {
    groups: DeclaredGroups,
    inheritance: Acyclic,
    expansion: Acyclic,
    meeting: Vec<bool>,
    limit: Option<GroupLimit>,
}

impl Model for GroupGraph {
    ghost use Rattle.fv_declare_schema.specs.Groups.{Groups};

    ghost Value = { Groups };

    ghost use Rattle.fv_declare_schema.specs.Tables.{IsGraph};

    ghost view = { λ g. g.groups };

    ghost invariant = { λ g. IsGraph g.groups g.inheritance g.expansion g.meeting.items g.limit };
}

impl GroupGraph {
    /// The groups of a map from names to declarations, and `Default`.
    ///
    /// Refused by `UnknownGroup` for a name that is no group's, else by `CyclicInheritance` where a
    /// group inherits itself, else by `CyclicSequence` where a sequence contains itself, directly or
    /// through others, else by `SequenceMisused` where a group inherits a sequence; `Memory` at any
    /// place.
    pub fn new(
        alloc: Global,
        declared: IndexMap<String, GroupDraft>,
    ) -> Result<GroupGraph, PlacedGroupFault>
        ensures made { let gs = all_groups (declared_view declared) in
            MatchResult result (λ g. (g ≡ gs) × AreSound gs) (λ e. (e.fault ≢ TooLarge) × IsFault gs e.fault) }
        ensures placed { IfErr result (λ e. IsAt (all_groups (declared_view declared)) e.fault e.at) }
    {
        let groups = DeclaredGroups::new(declared);
        if let Some(name) = groups.unknown_name() {
            return Err(PlacedGroupFault {
                fault: GroupFault::UnknownGroup,
                at: Some(name),
            });
        }
        let Some(inheritance) = Acyclic::new(alloc, groups.inherited(alloc)?)? else {
            return Err(PlacedGroupFault {
                fault: GroupFault::CyclicInheritance,
                at: None,
            });
        };
        let Some(expansion) = Acyclic::new(alloc, groups.members(alloc)?)? else {
            return Err(PlacedGroupFault {
                fault: GroupFault::CyclicSequence,
                at: None,
            });
        };
        if let Some(name) = groups.inherited_sequence() {
            return Err(PlacedGroupFault {
                fault: GroupFault::SequenceMisused,
                at: Some(name),
            });
        }
        let meeting = meeting_default(alloc, groups.count(), &inheritance, &expansion)?;
        let limit = groups.passed_limit();
        Ok(GroupGraph {
            groups,
            inheritance,
            expansion,
            meeting,
            limit,
        })
    }

    /// The number of the group of that name.
    pub fn find(&self, name: &str) -> Option<GroupId>
        ensures number { option_map (λ g. g.index) result ≡ group_number self.now name.now }
        ensures within { IfSome result (λ g. g.index < length self.now) }
    {
        self.groups.find(name)
    }

    /// Whether a group is a sequence.
    pub fn is_sequence(&self, group: GroupId) -> bool
        ensures { result ≡ is_sequence self.now group.index }
    {
        self.groups.is_sequence(group)
    }

    /// Whether a group is or expands to one that is or inherits `Default`.
    pub fn meets_default(&self, group: GroupId) -> bool
        requires { group.index < length self.now }
        ensures { IsTrue result ↔ MeetsDefault self.now group.index }
    {
        self.meeting[group.index]
    }

    /// The first limit that is passed: that of 256 groups, or that of 32 groups that one inherits directly or
    /// that are members of one.
    pub fn passed_limit(&self) -> Option<GroupLimit>
        ensures { result ≡ passed_limit self.now }
    {
        self.limit
    }

    /// The groups with their tables; refused by `TooLarge` where a limit is passed, and by `Memory`.
    pub fn finish(self, alloc: Global) -> Result<Groups, GroupFault>
        ensures { MatchResult result (λ gs. (gs ≡ self) × AreSound self × (are_too_large self ≡ false))
            (λ e. (e ≡ Memory) ⊎ ((e ≡ TooLarge) × (are_too_large self ≡ true))) }
    {
        if self.limit.is_some() {
            return Err(GroupFault::TooLarge);
        }
        Ok(Groups::new(alloc, self.groups, &self.inheritance, &self.expansion)?)
    }
}

/// For each of so many groups whether it is or expands to one that is or inherits `Default`.
fn meeting_default(
    alloc: Global,
    count: usize,
    inheritance: &Acyclic,
    expansion: &Acyclic,
) -> Result<Vec<bool>, AllocError>
    requires some { 0 < count }
    requires inheritance { length inheritance.now ≡ count }
    requires expansion { length expansion.now ≡ count }
    ensures { IfOk result (λ flags. AreMeetingIn (next_of inheritance.now)
        (next_of expansion.now) count flags.items) }
{
    let inheriting = inheritance.reaching(alloc, &only(alloc, count, 0)?)?;
    expansion.reaching(alloc, &inheriting)
}
