//! Groups that aren't declared, and where they are named.
ghost use Rattle.std.specs.Prelude.{◌≡◌, map};
ghost use Rattle.fv_declare_draft.specs.DraftViews.{conversion_view, type_view, form_view, draft_view};
ghost use Rattle.fv_first.specs.First.{first_where};
ghost use Rattle.fv_declare_groups.specs.Grouping.{member_unknown, conversion_unknown};
ghost use Rattle.fv_declare_groups.specs.Whereabouts.{unknown_use, unknown_member, unknown_conversion, unknown_form, unknown_in};
ghost use Rattle.fv_declare_schema.specs.Whereabouts.{first_unknown};
ghost use Rattle.fv_declare_schema.specs.GroupViews.{declared_view};
ghost use Rattle.fv_declare_schema.specs.Groups.{all_groups};
ghost use Rattle.fv_declare_draft.specs.UseViews.{use_view, cascade_view};

use crate::at::{CascadeAt, GroupingAt};
use crate::declared::{Declared, is_group, members_of};
use fv_declare_draft::{Cascade, Conversion, Draft, FormDraft, TypeDraft, Use};

/// The first of the names that is no group's.
#[tactic(auto, using(fv_first::proofs::Turns::name_turn))]
fn first_unknown(declared: &Declared, names: &[&str]) -> Option<usize>
    ensures { result ≡ first_unknown (all_groups (declared_view declared.now)) (map (λ n. n.now) names.now) }
{
    for (number, name) in names.iter().enumerate() {
        if !is_group(declared, name) {
            return Some(number);
        }
    }
    None
}

/// Where a constraint is in a group that isn't declared.
#[tactic(auto, using(crate::proofs::FirstTurns::use_turn))]
fn unknown_use(declared: &Declared, uses: &[Use]) -> Option<GroupingAt>
    ensures { result ≡ unknown_use (all_groups (declared_view declared.now)) (map use_view uses.now) }
{
    for (number, given) in uses.iter().enumerate() {
        if let Some(name) = first_unknown(declared, given.groups) {
            return Some(GroupingAt::Use(number, name));
        }
    }
    None
}

/// The first of the members of a type's sequence that is neither the type itself nor a group.
#[tactic(auto, using(fv_first::proofs::Turns::name_turn))]
fn unknown_among(declared: &Declared, type_name: &str, members: &[&str]) -> Option<usize>
    ensures { result ≡ first_where (member_unknown (all_groups (declared_view declared.now)) type_name.now)
        (map (λ n. n.now) members.now) }
{
    for (number, name) in members.iter().enumerate() {
        if *name != type_name && !is_group(declared, name) {
            return Some(number);
        }
    }
    None
}

/// Where a type's sequence has a member that is neither the type itself nor a group.
#[tactic(auto, using(crate::proofs::FirstTurns::type_turn))]
fn unknown_member(declared: &Declared, types: &[TypeDraft]) -> Option<GroupingAt>
    ensures { result ≡ unknown_member (all_groups (declared_view declared.now)) (map type_view types.now) }
{
    for (number, given) in types.iter().enumerate() {
        if let Some(member) = unknown_among(declared, given.name, members_of(given)) {
            return Some(GroupingAt::Member(number, member));
        }
    }
    None
}

/// The first of the conversions that is of or to what is no group.
#[tactic(auto, using(crate::proofs::FirstTurns::conversion_turn))]
fn unknown_converted(declared: &Declared, conversions: &[Conversion]) -> Option<usize>
    ensures { result ≡ first_where (conversion_unknown (all_groups (declared_view declared.now)))
        (map conversion_view conversions.now) }
{
    for (number, conversion) in conversions.iter().enumerate() {
        if !is_group(declared, conversion.from) || !is_group(declared, conversion.to) {
            return Some(number);
        }
    }
    None
}

/// Where a conversion is of or to what is no group.
#[tactic(auto, using(crate::proofs::FirstTurns::cascade_turn))]
fn unknown_conversion(declared: &Declared, cascades: &[Cascade]) -> Option<GroupingAt>
    ensures { result ≡ unknown_conversion (all_groups (declared_view declared.now)) (map cascade_view cascades.now) }
{
    for (number, given) in cascades.iter().enumerate() {
        if let Some(conversion) = unknown_converted(declared, &given.placed.cascade.conversions) {
            return Some(GroupingAt::Cascade(number, CascadeAt::Conversion(conversion)));
        }
    }
    None
}

/// Where a form has a group that isn't declared.
#[tactic(auto, using(crate::proofs::FirstTurns::form_turn))]
fn unknown_form(declared: &Declared, forms: &[FormDraft]) -> Option<GroupingAt>
    ensures { result ≡ unknown_form (all_groups (declared_view declared.now)) (map form_view forms.now) }
{
    for (number, form) in forms.iter().enumerate() {
        if let Some(name) = first_unknown(declared, &form.groups) {
            return Some(GroupingAt::Form(number, name));
        }
    }
    None
}

/// Where a constraint, else a type's sequence, else a conversion, else a form names a group that isn't
/// declared.
pub(crate) fn unknown_in(
    declared: &Declared,
    draft: &Draft,
    uses: &[Use],
    cascades: &[Cascade],
) -> Option<GroupingAt>
    ensures { result ≡ unknown_in (all_groups (declared_view declared.now)) (map use_view uses.now) (draft_view draft.now).types
        (map cascade_view cascades.now) (draft_view draft.now).forms }
{
    if let Some(at) = unknown_use(declared, uses) {
        return Some(at);
    }
    if let Some(at) = unknown_member(declared, &draft.types) {
        return Some(at);
    }
    if let Some(at) = unknown_conversion(declared, cascades) {
        return Some(at);
    }
    if let Some(at) = unknown_form(declared, &draft.forms) {
        return Some(at);
    }
    None
}
