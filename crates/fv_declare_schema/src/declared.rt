//! Declared groups by their names and numbers.
ghost use Rattle.std.specs.Prelude.{◌≡◌, ◌<◌, ◌++◌, [], map, length, false, option_map, IfOk, OnOk, IfSome};
ghost use Rattle.std.specs.List.{cons_option};
ghost use Rattle.std.specs.Option.{option_map_or};
ghost use Rattle.fv_declare_schema.specs.GroupViews.{names_view, declared_view};
ghost use Rattle.fv_declare_schema.specs.Groups.{all_groups, group_number, numbers_of, name_at, is_sequence, is_a_sequence, inherited_by, members_of};
ghost use Rattle.fv_declare_schema.specs.Whereabouts.{first_unknown, first_sequence, first_large, unknown_name, inherited_sequence, passed_limit};

use crate::draft::GroupDraft;
use crate::fault::{GroupLimit, NameAt};
use indexmap::IndexMap;
use std::alloc::{AllocError, Global};
use std::marker::Model;

/// The most groups.
const MOST_GROUPS: usize = 256;

/// The most groups that a group inherits directly, and the most members of a sequence.
const MOST_NAMES: usize = 32;

/// The number of a group among all groups; that of `Default` is 0.
#[derive(Clone, Copy, Debug, PartialEq, Eq)]
pub struct GroupId {
    pub index: usize,
}

/// The declared groups behind `Default`, which is always there and inherits nothing.
#[derive(Drop)]
pub(crate) struct DeclaredGroups {
    declared: IndexMap<String, GroupDraft>,
    count: usize,
}

impl Model for DeclaredGroups {
    ghost use Rattle.std.specs.Prelude.{◌≡◌, ◌+◌, ◌≤◌, ◌^◌, length};
    ghost use Rattle.fv_declare_schema.specs.Groups.{Groups, all_groups};

    ghost Value = { Groups };

    ghost use Rattle.fv_declare_schema.specs.GroupViews.{declared_view};

    ghost view = { λ g. all_groups (declared_view g.declared) };

    ghost invariant = { λ g. (g.count ≡ 1 + length g.declared.entries) × (g.count ≤ 2 ^ 63) };
}

impl DeclaredGroups {
    /// The groups of a map and `Default`, numbered in the map's order behind it.
    pub(crate) fn new(declared: IndexMap<String, GroupDraft>) -> DeclaredGroups
        ensures { result ≡ all_groups (declared_view declared) }
    {
        let count = declared.len() + 1;
        DeclaredGroups { declared, count }
    }

    /// How many groups there are.
    pub(crate) fn count(&self) -> usize
        ensures { result ≡ length self.now }
    {
        self.count
    }

    /// The number of the group of that name.
    pub(crate) fn find(&self, name: &str) -> Option<GroupId>
        ensures number { option_map (λ g. g.index) result ≡ group_number self.now name.now }
        ensures within { IfSome result (λ g. g.index < length self.now) }
    {
        let declared = &self.declared;
        if name == "Default" {
            return Some(GroupId { index: 0 });
        }
        match declared.get_index_of(name) {
            Some(index) => Some(GroupId { index: index + 1 }),
            None => None,
        }
    }

    /// The name of a group; empty where no group has the number.
    pub(crate) fn name(&self, group: GroupId) -> &str
        ensures { result.now ≡ name_at self.now group.index }
    {
        let declared = &self.declared;
        if group.index == 0 {
            return "Default";
        }
        match declared.get_index(group.index - 1) {
            Some((name, _)) => name.as_str(),
            None => "",
        }
    }

    /// Whether a group is a sequence.
    pub(crate) fn is_sequence(&self, group: GroupId) -> bool
        ensures { result ≡ is_sequence self.now group.index }
    {
        let declared = &self.declared;
        if group.index == 0 {
            return false;
        }
        match declared.get_index(group.index - 1) {
            Some((_, draft)) => draft.is_sequence(),
            None => false,
        }
    }

    /// The first of the names that is no group's.
    #[tactic(auto, using(fv_first::proofs::Turns::text_turn))]
    fn first_unknown(&self, names: &[String]) -> Option<usize>
        ensures { result ≡ first_unknown self.now (names_view names.now) }
    {
        for (number, name) in names.iter().enumerate() {
            if self.find(name.as_str()).is_none() {
                return Some(number);
            }
        }
        None
    }

    /// Where a group inherits a group, or has a member, that isn't declared.
    #[tactic(auto, using(fv_first::proofs::Turns::next_turn))]
    pub(crate) fn unknown_name(&self) -> Option<NameAt>
        ensures { result ≡ unknown_name self.now }
    {
        for (number, (_, draft)) in self.declared.iter().enumerate() {
            if let Some(name) = self.first_unknown(draft.names()) {
                let group = number + 1;
                return Some(NameAt { group, name });
            }
        }
        None
    }

    /// Whether the group of that name is a sequence.
    fn is_sequence_named(&self, name: &str) -> bool
        ensures { result ≡ option_map_or (is_sequence self.now) (group_number self.now name.now) false }
    {
        match self.find(name) {
            Some(group) => self.is_sequence(group),
            None => false,
        }
    }

    /// The first of the names that is a sequence's.
    #[tactic(auto, using(fv_first::proofs::Turns::text_turn))]
    fn first_sequence(&self, names: &[String]) -> Option<usize>
        ensures { result ≡ first_sequence self.now (names_view names.now) }
    {
        for (number, name) in names.iter().enumerate() {
            if self.is_sequence_named(name.as_str()) {
                return Some(number);
            }
        }
        None
    }

    /// Where a group inherits a sequence.
    #[tactic(auto, using(fv_first::proofs::Turns::next_turn))]
    pub(crate) fn inherited_sequence(&self) -> Option<NameAt>
        ensures { result ≡ inherited_sequence self.now }
    {
        for (number, (_, draft)) in self.declared.iter().enumerate() {
            if let Some(name) = self.first_sequence(draft.inherited()) {
                let group = number + 1;
                return Some(NameAt { group, name });
            }
        }
        None
    }

    /// The first group that is declared with too many names.
    #[tactic(auto, using(fv_first::proofs::Turns::next_turn))]
    fn first_large(&self) -> Option<usize>
        ensures { result ≡ first_large self.now }
    {
        for (number, (_, draft)) in self.declared.iter().enumerate() {
            if draft.names().len() > MOST_NAMES {
                return Some(number + 1);
            }
        }
        None
    }

    /// The limit that is passed, how many groups there are asked first.
    pub(crate) fn passed_limit(&self) -> Option<GroupLimit>
        ensures { result ≡ passed_limit self.now }
    {
        if self.count() > MOST_GROUPS {
            return Some(GroupLimit::Groups);
        }
        match self.first_large() {
            None => None,
            Some(group) => Some(GroupLimit::Group(group)),
        }
    }

    /// The numbers of the groups of these names.
    fn numbers_of(&self, alloc: Global, names: &[String]) -> Result<Vec<usize>, AllocError>
        ensures { IfOk result (λ numbers. numbers.items ≡ numbers_of self.now (names_view names.now)) }
    {
        let mut numbers = Vec::new(alloc);
        for name in names {
            add_found(&mut numbers, self.find(name.as_str()))?;
        }
        Ok(numbers)
    }

    /// Which groups are sequences.
    pub(crate) fn sequences(&self, alloc: Global) -> Result<Vec<bool>, AllocError>
        ensures { IfOk result (λ flags. flags.items ≡ map (λ g. is_a_sequence g.1) self.now) }
    {
        let mut flags = Vec::new(alloc);
        flags.push(false)?;
        for (_, draft) in self.declared.iter() {
            flags.push(draft.is_sequence())?;
        }
        Ok(flags)
    }

    /// The groups that each group inherits directly.
    pub(crate) fn inherited(&self, alloc: Global) -> Result<Vec<Vec<usize>>, AllocError>
        ensures { IfOk result (λ edges. map (λ nodes. nodes.items) edges.items
            ≡ map (λ g. numbers_of self.now (inherited_by g.1)) self.now) }
    {
        let mut edges = Vec::new(alloc);
        edges.push(Vec::new(alloc))?;
        for (_, draft) in self.declared.iter() {
            edges.push(self.numbers_of(alloc, draft.inherited())?)?;
        }
        Ok(edges)
    }

    /// The members of each sequence.
    pub(crate) fn members(&self, alloc: Global) -> Result<Vec<Vec<usize>>, AllocError>
        ensures { IfOk result (λ edges. map (λ nodes. nodes.items) edges.items
            ≡ map (λ g. numbers_of self.now (members_of g.1)) self.now) }
    {
        let mut edges = Vec::new(alloc);
        edges.push(Vec::new(alloc))?;
        for (_, draft) in self.declared.iter() {
            edges.push(self.numbers_of(alloc, draft.members())?)?;
        }
        Ok(edges)
    }
}

/// Adds the number of a group, where one was found.
fn add_found(numbers: &mut Vec<usize>, found: Option<GroupId>) -> Result<(), AllocError>
    ensures { OnOk result (numbers.new.items ≡ numbers.old.items ++ cons_option (option_map (λ g. g.index) found) []) }
{
    match found {
        Some(group) => {
            numbers.push(group.index)?;
            Ok(())
        }
        None => Ok(()),
    }
}
