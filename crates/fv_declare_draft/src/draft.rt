//! Declarations by their names, before any of them is judged.
ghost use Rattle.std.proofs.Props.{props};
ghost use Rattle.std.specs.Prelude.{◌≡◌, map};
ghost use Rattle.fv_datum.specs.Ascending.{IsAscending};

use fv_bundle::TypeUse;
use fv_datum::{Attrs, Kind};
use fv_declare_definition::Definition;
use fv_extract::Step;
use std::collections::BTreeMap;

/// A use of a constraint.
#[derive(Drop)]
pub struct UseDraft<'a> {
    pub constraint: &'a str,
    pub with: Attrs,
    /// The names of its groups; none stand for `Default`.
    pub groups: Vec<&'a str>,
    /// The template of its message, if it has one of its own.
    pub message: Option<&'a str>,
}

/// A group by its name, and the one that it is converted to.
#[derive(Drop)]
pub struct Conversion<'a> {
    pub from: &'a str,
    pub to: &'a str,
}

/// Whether the objects at a place are validated, and the conversions on the way to them.
#[derive(Drop)]
pub struct CascadeDraft<'a> {
    pub valid: bool,
    pub conversions: Vec<Conversion<'a>>,
}

/// A cascade at a place in a field.
#[derive(Drop)]
pub struct PlacedCascade<'a> {
    /// The steps from the field to the place.
    pub steps: Vec<Step>,
    /// The kind of what stands there.
    pub kind: Kind,
    pub cascade: CascadeDraft<'a>,
}

/// A use of a constraint at a place in a field.
#[derive(Drop)]
pub struct PlacedUse<'a> {
    /// The steps from the field to the place.
    pub steps: Vec<Step>,
    /// The kind of what stands there.
    pub kind: Kind,
    pub draft: UseDraft<'a>,
}

/// A field of a type, with the uses at it and inside it in the order of their numbers, and the cascades
/// at it and at each place inside it.
#[derive(Drop)]
pub struct FieldDraft<'a> {
    pub name: &'a str,
    pub type_use: TypeUse,
    pub uses: Vec<PlacedUse<'a>>,
    pub cascades: Vec<PlacedCascade<'a>>,
}

/// A type, its fields ascending by the bytes of their names, and the uses at itself.
#[derive(Drop)]
pub struct TypeDraft<'a> {
    pub name: &'a str,
    pub fields: Vec<FieldDraft<'a>>,
    pub uses: Vec<UseDraft<'a>>,
    /// The members of the sequence that redefines `Default` for the type, if it has one.
    pub sequence: Option<Vec<&'a str>>,
    pub ghost ascend: { IsAscending (map (λ f. f.name.now) fields.items) } by { Prim.hlevel props },
}

/// A form.
#[derive(Drop)]
pub struct FormDraft<'a> {
    pub name: &'a str,
    pub root: &'a str,
    /// The names of its groups; none stand for `Default`.
    pub groups: Vec<&'a str>,
}

/// What a declared group is.
#[derive(Drop)]
pub enum GroupForm<'a> {
    /// A plain group, with the names of the groups that it inherits.
    Inherits(Vec<&'a str>),
    /// A sequence of groups, with the names of its members in order.
    Sequence(Vec<&'a str>),
}

/// A declared group.
#[derive(Drop)]
pub struct GroupDraft<'a> {
    pub name: &'a str,
    pub form: GroupForm<'a>,
}

/// A message: the template that stands for its key.
#[derive(Drop)]
pub struct MessageDraft<'a> {
    pub key: &'a str,
    pub template: &'a str,
}

/// Declarations, types, forms, groups and messages ascending by the bytes of their names and keys.
#[derive(Drop)]
pub struct Draft<'a> {
    pub types: Vec<TypeDraft<'a>>,
    pub forms: Vec<FormDraft<'a>>,
    /// The declared constraints by their names.
    pub definitions: BTreeMap<String, Definition>,
    pub groups: Vec<GroupDraft<'a>>,
    pub messages: Vec<MessageDraft<'a>>,
    pub ghost types_ascend: { IsAscending (map (λ t. t.name.now) types.items) } by { Prim.hlevel props },
    pub ghost groups_ascend: { IsAscending (map (λ g. g.name.now) groups.items) } by { Prim.hlevel props },
    pub ghost forms_ascend: { IsAscending (map (λ f. f.name.now) forms.items) } by { Prim.hlevel props },
    pub ghost messages_ascend: { IsAscending (map (λ m. m.key.now) messages.items) } by { Prim.hlevel props },
}
