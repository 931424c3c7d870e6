ghost use Rattle.std.specs.Prelude.{◌≡◌, IfSome, map, nat_eq, option_map, option_and_then, slice_get};
ghost use Rattle.std.specs.List.{filter, list_all};
ghost use Rattle.fv_datum.specs.Lookup.{at_name};
ghost use Rattle.fv_declare_schema.specs.NumberViews.{valid_place_view};
ghost use Rattle.fv_declare_schema.specs.Tables.{indices};
ghost use Rattle.fv_bundle.specs.Types.{name_at};
ghost use Rattle.fv_bundle.specs.TypesView.{types_view};
ghost use Rattle.fv_declare_schema.specs.Fits.{placed_fits, fits};
ghost use Rattle.fv_declare_schema.specs.Ordered.{AreOrdered, AreGroups};
ghost use Rattle.fv_declare_schema.specs.PlacedView.{placed_view};
ghost use Rattle.fv_declare_schema.specs.PlaceViews.{place_view};
ghost use Rattle.fv_declare_schema.specs.Places.{judged_at};
ghost use Rattle.fv_constraint_tree.specs.TargetFits.{test_fits};
ghost use Rattle.fv_constraint_tree.specs.Views.{test_view};

use crate::declared::GroupId;
use crate::groups::Groups;
use crate::place::{Place, Placed, ValidPlace};
use fv_bundle::{TypeId, Types};
use fv_constraint_tree::Test;
use fv_message::Messages;
use fv_registry::RuleSet;
use indexmap::IndexMap;
use std::marker::Model;

/// A form: its root's type and its groups.
#[derive(Drop)]
pub struct Form {
    pub root: TypeId,
    pub groups: Vec<GroupId>,
}

/// What of declarations names types and groups by their numbers.
#[derive(Drop)]
pub struct NumberedParts {
    /// The uses of constraints, each at its number: by types, in a type those at itself and then by
    /// fields, in a field those at it and then those inside it.
    pub occurrences: Vec<Placed>,
    /// The forms by their names.
    pub forms: IndexMap<String, Form>,
    /// For each type the ranks of the sequence that redefines `Default` for it, if there is one.
    pub sequences: Vec<Option<Vec<GroupId>>>,
    /// The places whose objects are validated: by types, in a type by fields, in a field from the
    /// outermost place inwards.
    pub valid_places: Vec<ValidPlace>,
}

/// What declarations declare. Contracts see it as the declarations.
#[derive(Drop)]
pub struct Schema {
    types: Types,
    groups: Groups,
    /// The messages by their keys.
    messages: Messages,
    numbered: NumberedParts,
}

impl Model for Schema {
    ghost use Rattle.std.specs.Coded.{codes};
    ghost use Rattle.fv_builtin.specs.Codes.{pattern_code};
    ghost use Rattle.fv_constraint_tree.specs.Codes.{tree_code};
    ghost use Rattle.fv_constraint_tree.specs.Nodes.{Node};
    ghost use Rattle.fv_declare_schema.specs.Codes.{type_use_code};
    ghost use Rattle.fv_declare_schema.specs.Declarations.{Declarations};
    ghost use Rattle.fv_declare_schema.specs.Ordered.{AreOrdered};
    ghost use Rattle.fv_declare_schema.specs.SchemaView.{declared_by};

    ghost Value = { Declarations };

    ghost coded = { Prim.hlevel (codes, type_use_code, tree_code {N = Node} (Prim.hlevel (codes, pattern_code))) };

    ghost view = { λ s. declared_by s.types s.groups s.messages s.numbered };

    ghost invariant = { λ s. AreOrdered (declared_by s.types s.groups s.messages s.numbered) };
}

impl Schema {
    ghost use Rattle.fv_declare_schema.specs.SchemaView.{declared_by, form_groups_view, forms_view};

    /// What these types, groups and messages declare, with the parts that name them by their numbers.
    pub fn new(types: Types, groups: Groups, messages: Messages, numbered: NumberedParts) -> Schema
        requires { AreOrdered (declared_by types groups messages numbered) }
        ensures { result ≡ declared_by types groups messages numbered }
    {
        Schema {
            types,
            groups,
            messages,
            numbered,
        }
    }

    /// The declared types.
    pub fn types(&self) -> &Types
        ensures { types_view result.now ≡ self.now.types }
    {
        &self.types
    }

    /// The uses of constraints, each at its number.
    pub fn occurrences(&self) -> &[Placed]
        ensures uses { map placed_view result.now ≡ self.now.occurrences }
        ensures ordered { AreOrdered self.now }
    {
        &self.numbered.occurrences
    }

    /// The forms by their names.
    pub fn forms(&self) -> &IndexMap<String, Form>
        ensures roots { forms_view self.now.types result.now ≡ self.now.forms }
        ensures groups { form_groups_view result.now ≡ self.now.form_groups }
    {
        &self.numbered.forms
    }

    /// The type of a form's root.
    pub fn root_of(&self, form: &str) -> Option<TypeId>
        ensures { option_map (λ t. name_at self.now.types t.index) result ≡ at_name form.now self.now.forms }
    {
        match self.numbered.forms.get(form) {
            None => None,
            Some(found) => Some(found.root),
        }
    }

    /// The groups of a form.
    pub fn groups_of(&self, form: &str) -> Option<&[GroupId]>
        ensures groups { option_map (λ g. indices g.now) result ≡ at_name form.now self.now.form_groups }
        ensures within { IfSome result (λ g. AreGroups self.now.groups (indices g.now)) }
    {
        match self.numbered.forms.get(form) {
            None => None,
            Some(found) => Some(&found.groups),
        }
    }

    /// The declared groups.
    pub fn groups(&self) -> &Groups
        ensures { result.now ≡ self.now.groups }
    {
        &self.groups
    }

    /// The ranks of the sequence that redefines `Default` for a type, if there is one: plain groups,
    /// where `Default` stands for the type's own name. None where no type has the number.
    pub fn sequence_of(&self, type_id: TypeId) -> Option<&[GroupId]>
        ensures { option_map (λ g. indices g.now) result
            ≡ option_and_then (λ ranks. ranks) (slice_get self.now.sequences type_id.index) }
    {
        match self.numbered.sequences.get(type_id.index) {
            Some(Some(ranks)) => Some(ranks),
            _ => None,
        }
    }

    /// The places whose objects are validated, in order.
    pub fn valid_places(&self) -> &[ValidPlace]
        ensures { map valid_place_view result.now ≡ self.now.valid_places }
    {
        &self.numbered.valid_places
    }

    /// The places of a type whose objects are validated, in order.
    pub fn valid_places_of(&self, type_id: TypeId) -> &[ValidPlace]
        ensures places { map valid_place_view result.now ≡ filter (λ p. nat_eq p.type type_id.index) self.now.valid_places }
        ensures ordered { AreOrdered self.now }
    {
        let places = self.numbered.valid_places.as_slice();
        let first = places.partition_point(|place| place.type_index < type_id.index);
        let (_, rest) = places.split_at(first);
        let count = rest.partition_point(|place| place.type_index <= type_id.index);
        &rest[..count]
    }

    /// All messages by their keys: the declared ones, and the built-in ones.
    pub fn messages(&self) -> &Messages
        ensures { result.now ≡ self.now.messages }
    {
        &self.messages
    }

    /// Whether each rule that is used is there for its sort, and takes the kinds of its places.
    pub fn fits<R: RuleSet>(&self, rules: &R) -> bool
        ensures { result ≡ fits (R.known rules.now) self.now }
    {
        all_fit(rules, &self.numbered.occurrences)
    }
}

fn all_fit<R: RuleSet>(rules: &R, occurrences: &[Placed]) -> bool
    ensures { result ≡ list_all (placed_fits (R.known rules.now)) (map placed_view occurrences.now) }
{
    for placed in occurrences {
        if !placed_fits(rules, placed) {
            return false;
        }
    }
    true
}

/// Whether the rule that a test asks is there for what is judged at the place.
fn test_fits<R: RuleSet>(rules: &R, place: &Place, test: &Test) -> bool
    ensures { result ≡ test_fits (R.known rules.now) (judged_at (place_view place.now)) (test_view test.now) }
{
    match (test, place) {
        (Test::BuiltIn(_) | Test::Nothing, _) => true,
        (Test::Rule(rule), Place::Field(_, _, kind)) => {
            rules.knows_field(*rule) && rules.takes(*rule, *kind)
        }
        (Test::ObjectRule(rule), Place::Whole) => rules.knows_object(*rule),
        _ => false,
    }
}

/// Whether each rule that a use asks is there for what is judged at its place.
fn placed_fits<R: RuleSet>(rules: &R, placed: &Placed) -> bool
    ensures { result ≡ placed_fits (R.known rules.now) (placed_view placed.now) }
{
    for number in 0..placed.occurrence.size() {
        let Some(node) = placed.occurrence.node(number) else {
            unreachable!()
        };
        if !test_fits(rules, &placed.place, &node.test) {
            return false;
        }
    }
    true
}
