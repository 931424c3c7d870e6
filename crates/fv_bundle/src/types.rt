ghost use Rattle.std.specs.Prelude.{◌≡◌, ◌≢◌, false, length, option_map, is_some, slice_get, IsTrue, MatchResult, IfOk, IfErr, IfSome, Some, None};
ghost use Rattle.std.specs.Option.{IfNone};
ghost use Rattle.fv_datum.specs.Lookup.{at_name};
ghost use Rattle.fv_bundle.specs.declared.fault.TypesFault.TheVariants.{Memory};
ghost use Rattle.fv_bundle.specs.Types.{AreApart, FieldsApart, declared_view, fields_view, type_use_view, is_unknown, has_deep, types_fault, name_at, number_of_type};
ghost use Rattle.fv_bundle.specs.Whereabouts.{unknown_field, unknown_reference_at, deep_field, large_in, large_type_at, large_at, types_fault_at};

use crate::fault::{PlacedTypesFault, TypesAt, TypesFault};
use crate::type_use::{TypeUse, is_deeper};
use indexmap::IndexMap;
use std::alloc::{AllocError, Global};
use std::rc::Rc;

/// The most types.
const MOST_TYPES: usize = 256;

/// The most fields of a type.
const MOST_FIELDS: usize = 256;

/// The most containers one in another.
const MOST_NESTED: usize = 4;

/// A type's fields: what each holds, by its name.
pub type Fields = IndexMap<String, TypeUse>;

/// The number of a type among the declared ones.
#[derive(Clone, Copy, Debug, PartialEq, Eq)]
pub struct TypeId {
    pub index: usize,
}

/// The declared types by their names, each with a number. The fields of a type have names of their
/// own, and hold at most four containers one in another. Objects share them.
#[derive(Drop)]
pub struct Types {
    declared: Rc<IndexMap<String, Fields>>,
    ghost apart: { FieldsApart (declared_view declared.value) },
    ghost shallow: { has_deep (declared_view declared.value) ≡ false },
}

impl Types {
    ghost use Rattle.fv_bundle.specs.TypesView.{types_view};

    /// The types of a map of type names to maps of field names to type uses, numbered in the map's
    /// order.
    ///
    /// Refused by `UnknownType` for a reference to a type that isn't declared, else by `TooLarge`
    /// for more than 256 types, a type of more than 256 fields, or a field that holds more than four
    /// containers one in another; `Memory` at any place.
    pub fn build(alloc: Global, declared: IndexMap<String, Fields>) -> Result<Types, TypesFault>
        ensures { MatchResult result (λ ts. (types_fault (declared_view declared) ≡ None)
            × (types_view ts ≡ declared_view declared))
            (λ e. e ≢ Memory → types_fault (declared_view declared) ≡ Some e) }
    {
        match Types::build_placed(alloc, declared) {
            Ok(types) => Ok(types),
            Err(placed) => Err(placed.fault),
        }
    }

    /// The same types, or the fault that `build` answers with its place: that of `UnknownType` is the first
    /// field that refers to no type, that of `TooLarge` the types where there are too many, else the first type
    /// that passes a limit: itself for its fields, else its first field that nests too deep.
    pub fn build_placed(
        alloc: Global,
        declared: IndexMap<String, Fields>,
    ) -> Result<Types, PlacedTypesFault>
        ensures made { MatchResult result (λ ts. (types_fault (declared_view declared) ≡ None)
            × (types_view ts ≡ declared_view declared))
            (λ e. e.fault ≢ Memory → types_fault (declared_view declared) ≡ Some e.fault) }
        ensures placed { IfErr result (λ e. e.at ≡ types_fault_at (declared_view declared) e.fault) }
        ensures found { IfErr result (λ e. e.fault ≢ Memory → IsTrue (is_some e.at)) }
    {
        if let Some(field) = unknown_reference(&declared) {
            return Err(PlacedTypesFault {
                fault: TypesFault::UnknownType,
                at: Some(field),
            });
        }
        if let Some(large) = too_large(&declared) {
            return Err(PlacedTypesFault {
                fault: TypesFault::TooLarge,
                at: Some(large),
            });
        }
        Ok(Types {
            declared: Rc::new(alloc, declared)?,
        })
    }

    /// The same types, which are shared and not copied.
    pub fn share(&self) -> Result<Types, AllocError>
        ensures { IfOk result (λ ts. types_view ts ≡ types_view self.now) }
    {
        Ok(Types {
            declared: self.declared.clone()?,
        })
    }

    /// How many types there are.
    pub fn count(&self) -> usize
        ensures { result ≡ length (types_view self.now) }
    {
        self.declared.len()
    }

    /// The number of the type of that name.
    pub fn find(&self, name: &str) -> Option<TypeId>
        ensures { option_map (λ t. t.index) result ≡ number_of_type (types_view self.now) name.now }
    {
        match self.declared.get_index_of(name) {
            Some(index) => Some(TypeId { index }),
            None => None,
        }
    }

    /// The name of a type; empty where no type has the number.
    pub fn name(&self, id: TypeId) -> &str
        ensures { result.now ≡ name_at (types_view self.now) id.index }
    {
        match self.declared.get_index(id.index) {
            Some((name, _)) => name.as_str(),
            None => "",
        }
    }

    /// The fields of the type of that name.
    pub fn fields(&self, name: &str) -> Option<&Fields>
        ensures { option_map (λ m. fields_view m.now) result ≡ at_name name.now (types_view self.now) }
    {
        fields_in(&self.declared, name)
    }

    /// The number of the type of that name, with its fields.
    pub fn find_with_fields(&self, name: &str) -> Option<(TypeId, &Fields)>
        ensures found { option_map (λ t. fields_view t.1.now) result ≡ at_name name.now (types_view self.now) }
        ensures placed { IfSome result (λ t. slice_get (types_view self.now) t.0.index
            ≡ Some (name.now, fields_view t.1.now)) }
    {
        let (index, _, fields) = self.declared.get_full(name)?;
        Some((TypeId { index }, fields))
    }

    /// The fields of a type; `None` where no type has the number.
    pub fn fields_at(&self, id: TypeId) -> Option<&Fields>
        ensures { option_map (λ m. fields_view m.now) result
            ≡ option_map (λ t. t.1) (slice_get (types_view self.now) id.index) }
    {
        let (_, fields) = self.declared.get_index(id.index)?;
        Some(fields)
    }
}

/// The fields of the type of that name.
fn fields_in<'a>(declared: &'a IndexMap<String, Fields>, name: &str) -> Option<&'a Fields>
    ensures { option_map (λ m. fields_view m.now) result ≡ at_name name.now (declared_view declared.now) }
{
    declared.get(name)
}

/// Whether a type use refers to a type that isn't declared, in a container too.
fn is_unknown(declared: &IndexMap<String, Fields>, type_use: &TypeUse) -> bool
    ensures { result ≡ is_unknown (declared_view declared.now) (type_use_view type_use.now) }
{
    match type_use {
        TypeUse::Ref(name) => fields_in(declared, name.as_str()).is_none(),
        TypeUse::List(held) | TypeUse::Map(held) | TypeUse::Optional(held) => is_unknown(
            declared, held,
        ),
        _ => false,
    }
}

/// The first of the fields that refers to a type that isn't declared.
#[tactic(auto, using(fv_first::proofs::Turns::entry_turn))]
fn unknown_field(declared: &IndexMap<String, Fields>, fields: &Fields) -> Option<usize>
    ensures { result ≡ unknown_field (declared_view declared.now) (fields_view fields.now) }
{
    for (number, (_, type_use)) in fields.iter().enumerate() {
        if is_unknown(declared, type_use) {
            return Some(number);
        }
    }
    None
}

/// Where a field refers to a type that isn't declared.
#[tactic(auto, using(fv_first::proofs::Turns::entry_turn))]
fn unknown_reference(declared: &IndexMap<String, Fields>) -> Option<TypesAt>
    ensures { result ≡ unknown_reference_at (declared_view declared.now) }
{
    for (number, (_, fields)) in declared.iter().enumerate() {
        if let Some(field) = unknown_field(declared, fields) {
            return Some(TypesAt::Field(number, field));
        }
    }
    None
}

/// The first of the fields that holds too many containers one in another.
#[tactic(auto, using(fv_first::proofs::Turns::entry_turn))]
fn deep_field(fields: &Fields) -> Option<usize>
    ensures { result ≡ deep_field (fields_view fields.now) }
{
    for (number, (_, type_use)) in fields.iter().enumerate() {
        if is_deeper(type_use, MOST_NESTED) {
            return Some(number);
        }
    }
    None
}

/// Where the type of that number is too large, which has these fields.
fn large_in(number: usize, fields: &Fields) -> Option<TypesAt>
    ensures exact { result ≡ large_in number (fields_view fields.now) }
    ensures apart { AreApart (fields_view fields.now) }
{
    if fields.len() > MOST_FIELDS {
        return Some(TypesAt::Type(number));
    }
    let field = deep_field(fields)?;
    Some(TypesAt::Field(number, field))
}

/// Where the first type that is too large is so.
#[tactic(auto, using(fv_first::proofs::Turns::entry_turn))]
fn large_type(declared: &IndexMap<String, Fields>) -> Option<TypesAt>
    ensures exact { result ≡ large_type_at (declared_view declared.now) }
    ensures apart { IfNone result (FieldsApart (declared_view declared.now)) }
{
    for (number, (_, fields)) in declared.iter().enumerate() {
        if let Some(at) = large_in(number, fields) {
            return Some(at);
        }
    }
    None
}

/// Where the types are too large.
fn too_large(declared: &IndexMap<String, Fields>) -> Option<TypesAt>
    ensures exact { result ≡ large_at (declared_view declared.now) }
    ensures apart { IfNone result (FieldsApart (declared_view declared.now)) }
{
    if declared.len() > MOST_TYPES {
        return Some(TypesAt::Types);
    }
    large_type(declared)
}

/// What the field of that name holds.
pub fn use_in<'a>(fields: &'a Fields, name: &str) -> Option<&'a TypeUse>
    ensures { option_map (λ u. type_use_view u.now) result ≡ at_name name.now (fields_view fields.now) }
{
    fields.get(name)
}
