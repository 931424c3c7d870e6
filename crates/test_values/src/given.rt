//! Tables of rows, and the types, data and attributes that rows give, written as texts.
use fv_bundle::{Bundle, Fields, TypeUse, Types};
use fv_datum::{Attrs, Datum, read_text};
use fv_declare_definition::attrs_of;
use fv_model::{read_bundle, read_value};
use indexmap::IndexMap;
use std::alloc::Global;
use std::process::Abort;
use std::test::Fail;

/// What is found for a row is what is wanted of it.
pub(crate) fn check(rt: &impl Abort, found: &str, wanted: &str, row: &str) {
    assert_eq!(rt; found, wanted, "{row}");
}

/// What a table is about.
pub(crate) trait Rows {
    /// What is found for what a row gives.
    fn found(alloc: Global, given: &str) -> Result<String, Fail>;
}

/// What is found for each row `GIVEN => WANTED` of a table is what is wanted of it.
pub(crate) fn check_rows<R: Rows>(rt: &impl Abort, alloc: Global, table: &str) -> Result<(), Fail> {
    for row in table.trim().lines() {
        let (given, wanted) = row.split_once(" => ").ok_or("a row")?;
        let found = R::found(alloc, given)?;
        check(rt, found.as_str(), wanted, row);
    }
    Ok(())
}

/// The attributes of a JSON object.
pub(crate) fn attributes(alloc: Global, text: &str) -> Result<Attrs, Fail> {
    let document = read_text(alloc, text)?;
    let found = attrs_of(alloc, Some(&document))?;
    Ok(found.ok_or("attributes")?)
}

/// Data of the kind of a letter, or behind `&` a reference to a type.
fn plain_use(alloc: Global, held: &str) -> Result<TypeUse, Fail> {
    if let Some(name) = held.strip_prefix("&") {
        return Ok(TypeUse::Ref(String::from_str(alloc, name)?));
    }
    match held.chars().next() {
        Some('T') => Ok(TypeUse::Text),
        Some('I') => Ok(TypeUse::Integer),
        Some('D') => Ok(TypeUse::Decimal),
        Some('B') => Ok(TypeUse::Boolean),
        Some('E') => Ok(TypeUse::Date),
        Some('M') => Ok(TypeUse::Instant),
        _ => Err("a plain kind".into()),
    }
}

/// What a field holds: data as `plain_use` says, or as `T in O in L` lists of optionals of texts, with `P`
/// for maps.
pub(crate) fn type_use(alloc: Global, held: &str) -> Result<TypeUse, Fail> {
    let mut parts = held.split(" in ");
    let mut type_use = plain_use(alloc, parts.next().ok_or("a kind")?)?;
    for container in parts {
        let inner = Box::new(alloc, type_use)?;
        type_use = match container {
            "L" => TypeUse::List(inner),
            "P" => TypeUse::Map(inner),
            _ => TypeUse::Optional(inner),
        };
    }
    Ok(type_use)
}

/// A type's fields, as `to: &P, count: I`.
fn fields_of(alloc: Global, text: &str) -> Result<Fields, Fail> {
    let mut fields = IndexMap::new(alloc);
    for field in text.split(", ") {
        let (name, held) = field.split_once(": ").ok_or("a field")?;
        fields.insert(String::from_str(alloc, name)?, type_use(alloc, held)?)?;
    }
    Ok(fields)
}

/// Types, one a line, as `P = to: &P, count: I`.
pub(crate) fn declared(alloc: Global, table: &str) -> Result<IndexMap<String, Fields>, Fail> {
    let mut types = IndexMap::new(alloc);
    for line in table.lines() {
        let (name, fields) = line.split_once(" = ").ok_or("fields")?;
        types.insert(String::from_str(alloc, name)?, fields_of(alloc, fields)?)?;
    }
    Ok(types)
}

/// The datum of a row `HELD : VALUE`, what a field holds and a JSON value.
pub(crate) fn datum_of(alloc: Global, held: &TypeUse, text: &str) -> Result<Datum, Fail> {
    let value = read_text(alloc, text)?;
    Ok(read_value(alloc, held, &value)?)
}

/// Types, one a line, that are built.
pub(crate) fn built(alloc: Global, table: &str) -> Result<Types, Fail> {
    Ok(Types::build(alloc, declared(alloc, table)?)?)
}

/// The bundle of a text of JSON.
pub(crate) fn bundle_of(alloc: Global, types: &Types, text: &str) -> Result<Bundle, Fail> {
    let document = read_text(alloc, text)?;
    Ok(read_bundle(alloc, types, None, &document)?)
}
