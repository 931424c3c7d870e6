//! Sequences: where a group alone may stand, and those that redefine `Default` for a type.
ghost use Rattle.std.specs.Prelude.{◌≡◌, ◌↔◌, IsTrue, map, false, nat_lt, length};
ghost use Rattle.std.specs.List.{list_any};
ghost use Rattle.std.specs.Option.{option_map_or};
ghost use Rattle.std.specs.Str.{bytes_eq};
ghost use Rattle.fv_declare_draft.specs.DraftViews.{type_view};
ghost use Rattle.fv_first.specs.First.{first_where, IsFirstIn};
ghost use Rattle.fv_declare_groups.specs.Grouping.{lacks_type, is_long_sequence, MemberMeets};
ghost use Rattle.fv_declare_groups.specs.Whereabouts.{misused_in, lacking_in, IsMetAt, IsMetIn};
ghost use Rattle.fv_declare_schema.specs.Whereabouts.{first_sequence};
ghost use Rattle.fv_declare_schema.specs.Groups.{group_number, is_sequence};
ghost use Rattle.fv_declare_draft.specs.UseViews.{use_view};

use crate::at::GroupingAt;
use crate::declared::members_of;
use fv_declare_draft::{TypeDraft, Use};
use fv_declare_schema::GroupGraph;

/// The most members of a type's sequence.
const MOST_MEMBERS: usize = 32;

/// Whether the group of that name is a sequence.
pub(crate) fn is_sequence(graph: &GroupGraph, name: &str) -> bool
    ensures { result ≡ option_map_or (is_sequence graph.now) (group_number graph.now name.now) false }
{
    match graph.find(name) {
        None => false,
        Some(group) => graph.is_sequence(group),
    }
}

/// The first of the names that is a sequence's.
#[tactic(auto, using(fv_first::proofs::Turns::name_turn))]
fn first_sequence(graph: &GroupGraph, names: &[&str]) -> Option<usize>
    ensures { result ≡ first_sequence graph.now (map (λ n. n.now) names.now) }
{
    for (number, name) in names.iter().enumerate() {
        if is_sequence(graph, name) {
            return Some(number);
        }
    }
    None
}

/// Where a constraint is in a sequence.
#[tactic(auto, using(crate::proofs::FirstTurns::use_turn))]
pub(crate) fn misused_in(graph: &GroupGraph, uses: &[Use]) -> Option<GroupingAt>
    ensures { result ≡ misused_in graph.now (map use_view uses.now) }
{
    for (number, given) in uses.iter().enumerate() {
        if let Some(name) = first_sequence(graph, given.groups) {
            return Some(GroupingAt::Use(number, name));
        }
    }
    None
}

/// Whether a name is among these.
#[tactic(auto, using(crate::proofs::Anys::name_turn))]
fn has_name(names: &[&str], name: &str) -> bool
    ensures { result ≡ list_any (λ n. bytes_eq n name.now) (map (λ n. n.now) names.now) }
{
    for other in names {
        if *other == name {
            return true;
        }
    }
    false
}

/// Whether a type has a sequence without its own name.
fn lacks_own_name(declared: &TypeDraft) -> bool
    ensures { result ≡ lacks_type (type_view declared.now) }
{
    match &declared.sequence {
        None => false,
        Some(members) => !has_name(members, declared.name),
    }
}

/// Where a type's sequence lacks the type's own name.
#[tactic(auto, using(crate::proofs::FirstTurns::type_turn))]
pub(crate) fn lacking_in(types: &[TypeDraft]) -> Option<GroupingAt>
    ensures { result ≡ lacking_in (map type_view types.now) }
{
    for (number, declared) in types.iter().enumerate() {
        if lacks_own_name(declared) {
            return Some(GroupingAt::Sequence(number));
        }
    }
    None
}

/// Whether a member of a type's sequence, other than the type itself, meets `Default`.
fn member_meets(graph: &GroupGraph, type_name: &str, name: &str) -> bool
    ensures { IsTrue result ↔ MemberMeets graph.now type_name.now name.now }
{
    if name == type_name {
        return false;
    }
    match graph.find(name) {
        None => false,
        Some(group) => graph.meets_default(group),
    }
}

/// The first of the members of a type's sequence, other than the type itself, that meets `Default`.
fn met_among(graph: &GroupGraph, type_name: &str, members: &[&str]) -> Option<usize>
    ensures { IsFirstIn (IsMetAt graph.now type_name.now) (map (λ n. n.now) members.now) result }
{
    for (number, name) in members.iter().enumerate() {
        if member_meets(graph, type_name, name) {
            return Some(number);
        }
    }
    None
}

/// Where a type's sequence has a member, other than the type itself, that meets `Default`.
pub(crate) fn met_in(graph: &GroupGraph, types: &[TypeDraft]) -> Option<GroupingAt>
    ensures { IsFirstIn (IsMetIn graph.now) (map type_view types.now) result }
{
    for (number, declared) in types.iter().enumerate() {
        if let Some(member) = met_among(graph, declared.name, members_of(declared)) {
            return Some(GroupingAt::Member(number, member));
        }
    }
    None
}

/// The number of the first type whose sequence has more than 32 members.
#[tactic(auto, using(crate::proofs::FirstTurns::type_turn))]
pub fn long_sequence(types: &[TypeDraft]) -> Option<usize>
    ensures { result ≡ first_where is_long_sequence (map type_view types.now) }
{
    for (number, declared) in types.iter().enumerate() {
        if members_of(declared).len() > MOST_MEMBERS {
            return Some(number);
        }
    }
    None
}
