//! What declarations narrow of others.
ghost use Rattle.std.specs.Prelude.{◌≡◌, ◌++◌, [], IfOk, OnOk, option_map};
ghost use Rattle.fv_bundle.specs.Names.{object_types_view};
ghost use Rattle.fv_bundle.specs.Types.{AreApart, FieldsApart, type_use_view, fields_view};
ghost use Rattle.fv_bundle.specs.TypesView.{types_view};
ghost use Rattle.fv_widening.specs.Narrowed.{found_in, use_narrowed, fields_narrowed, type_narrowed, numbered_narrowed, types_narrowed, root_narrowed, forms_narrowed, narrowed};
ghost use Rattle.fv_widening.specs.Widens.{Widens};

use crate::same::are_same;
use fv_bundle::{Fields, TypeId, TypeNames, TypeUse, Types, type_at, use_in};
use std::alloc::{AllocError, Global};

/// What declarations narrow of others, by numbers from 0 in the order of the others.
#[derive(Clone, Copy, Debug, PartialEq, Eq)]
pub enum Narrowed {
    /// A type isn't there.
    Type(usize),
    /// A type's field isn't there.
    Field(usize, usize),
    /// A type's field holds something else.
    Use(usize, usize),
    /// A form isn't there.
    Form(usize),
    /// A form's root is of another type.
    Root(usize),
}

/// What is narrowed of a field, by the numbers of its type and its own: it isn't there, or holds something else.
fn use_narrowed(
    type_number: usize,
    number: usize,
    own: &TypeUse,
    there: Option<&TypeUse>,
) -> Option<Narrowed>
    ensures { result ≡ use_narrowed type_number number (type_use_view own.now) (option_map (λ u. type_use_view u.now) there.entry) }
{
    match there {
        None => Some(Narrowed::Field(type_number, number)),
        Some(other) => if are_same(own, other) {
            None
        } else {
            Some(Narrowed::Use(type_number, number))
        },
    }
}

/// Adds what is narrowed, if anything is.
fn add(found: &mut Vec<Narrowed>, narrowed: Option<Narrowed>) -> Result<(), AllocError>
    ensures { OnOk result (found.new.items ≡ found.old.items ++ found_in narrowed) }
{
    if let Some(narrowed) = narrowed {
        found.push(narrowed)?;
    }
    Ok(())
}

/// Adds what is narrowed of the fields of a type.
#[tactic(auto, using(crate::proofs::Turns::entry_turn))]
fn add_fields(
    found: &mut Vec<Narrowed>,
    type_number: usize,
    old: &Fields,
    there: &Fields,
) -> Result<(), AllocError>
    ensures { OnOk result (found.new.items ≡ found.old.items ++ fields_narrowed type_number (fields_view old.now) (fields_view there.now)) }
{
    for (number, (name, own)) in old.iter().enumerate() {
        let there = use_in(there, name.as_str());
        add(found, use_narrowed(type_number, number, own, there))?;
    }
    Ok(())
}

/// Adds what is narrowed of a type.
fn add_type(
    found: &mut Vec<Narrowed>,
    number: usize,
    old: &Fields,
    there: Option<&Fields>,
) -> Result<(), AllocError>
    ensures { OnOk result (found.new.items ≡ found.old.items
        ++ type_narrowed number (fields_view old.now) (option_map (λ m. fields_view m.now) there.entry)) }
{
    match there {
        None => add(found, Some(Narrowed::Type(number))),
        Some(there) => add_fields(found, number, old, there),
    }
}

/// Adds what is narrowed of the type of a number.
fn add_numbered(
    found: &mut Vec<Narrowed>,
    index: usize,
    old: &Types,
    new: &Types,
) -> Result<(), AllocError>
    ensures { OnOk result (found.new.items ≡ found.old.items ++ numbered_narrowed (types_view old.now) (types_view new.now) index) }
{
    let id = TypeId { index };
    match old.fields_at(id) {
        None => Ok(()),
        Some(fields) => add_type(found, index, fields, new.fields(old.name(id))),
    }
}

/// Adds what is narrowed of the types.
fn add_types(found: &mut Vec<Narrowed>, old: &Types, new: &Types) -> Result<(), AllocError>
    ensures { OnOk result (found.new.items ≡ found.old.items ++ types_narrowed (types_view old.now) (types_view new.now)) }
{
    for index in 0..old.count() {
        add_numbered(found, index, old, new)?;
    }
    Ok(())
}

/// What is narrowed of a form, by its number and its root: it isn't there, or its root is of another type.
fn root_narrowed(number: usize, root: &str, there: Option<&str>) -> Option<Narrowed>
    ensures { result ≡ root_narrowed number root.now (option_map (λ s. s.now) there.entry) }
{
    match there {
        None => Some(Narrowed::Form(number)),
        Some(other) => if root == other {
            None
        } else {
            Some(Narrowed::Root(number))
        },
    }
}

/// Adds what is narrowed of the forms.
#[tactic(auto, using(crate::proofs::Turns::entry_turn))]
fn add_forms(found: &mut Vec<Narrowed>, old: &TypeNames, new: &TypeNames) -> Result<(), AllocError>
    ensures { OnOk result (found.new.items ≡ found.old.items ++ forms_narrowed (object_types_view old.now) (object_types_view new.now)) }
{
    for (number, (form, root)) in old.iter().enumerate() {
        add(found, root_narrowed(number, root, type_at(new, form)))?;
    }
    Ok(())
}

/// The same, without what follows where there is nothing.
fn all_narrowed(
    alloc: Global,
    old: &Types,
    forms: &TypeNames,
    new: &Types,
    new_forms: &TypeNames,
) -> Result<Vec<Narrowed>, AllocError>
    ensures { IfOk result (λ v. v.items ≡ narrowed (types_view old.now) (object_types_view forms.now) (types_view new.now) (object_types_view new_forms.now)) }
{
    let mut found = Vec::new(alloc);
    add_types(&mut found, old, new)?;
    add_forms(&mut found, forms, new_forms)?;
    Ok(found)
}

/// What declarations narrow of others, in the order of the others: of the types, and behind them of the forms, each
/// of which is given with the name of its root's type. A type, a field or a form that isn't there; a field that holds
/// something else; a form with a root of another type.
///
/// Where there is nothing, the new declarations have all that the old ones have, and may have more: each record that
/// is stored under the old ones is read again under them. Where there is something, a record may be stored that
/// isn't. That one can be isn't promised: a date, say, is written as a text of JSON, and read again where its field
/// holds texts.
pub fn narrowings(
    alloc: Global,
    old: &Types,
    forms: &TypeNames,
    new: &Types,
    new_forms: &TypeNames,
) -> Result<Vec<Narrowed>, AllocError>
    ensures exact { IfOk result (λ v. v.items ≡ narrowed (types_view old.now) (object_types_view forms.now) (types_view new.now) (object_types_view new_forms.now)) }
    ensures widens { IfOk result (λ v. v.items ≡ []
        → Widens (types_view old.now) (object_types_view forms.now) (types_view new.now) (object_types_view new_forms.now)) }
    ensures narrows { IfOk result (λ v. AreApart (types_view old.now) → FieldsApart (types_view old.now) → AreApart (object_types_view forms.now)
        → Widens (types_view old.now) (object_types_view forms.now) (types_view new.now) (object_types_view new_forms.now) → v.items ≡ []) }
{
    all_narrowed(alloc, old, forms, new, new_forms)
}
