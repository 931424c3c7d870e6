//! Data and the fields of objects as JSON texts. An object whose names ascend, as those of a bundle that was read do, is
//! written as it comes. Of any other, and where a map has other keys than texts in order, a tree of JSON is made first,
//! which puts the names in order.
ghost use Rattle.std.specs.Prelude.{◌≡◌, OnOk, IfOk, [], string_bytes};
ghost use Rattle.fv_model.specs.declared.text.Halt.TheVariants.{Memory};
ghost use Rattle.fv_datum.specs.Data as datum;
ghost use Rattle.fv_datum.specs.View.{view, items_view, entries_view};
ghost use Rattle.fv_bundle.specs.Writing.{IsWritten, datum_json};
ghost use Rattle.fv_model.specs.Puts.{Puts};
ghost use Rattle.json.specs.Print.{print, quoted};
ghost use Rattle.serde_json.specs.Data as json;
ghost use Rattle.serde_json.specs.Written.{compact_text};
ghost use Rattle.fv_bundle.specs.Views.{object_view};
ghost use Rattle.fv_model.specs.Writing.{fields_json};

use crate::tree::write_fields;
use fv_bundle::Object;
use fv_datum::{Datum, is_null, key_of, keys_fit};
use json::Writer;
use std::alloc::{AllocError, Global};

/// Why an object wasn't written as it comes.
#[derive(Clone, Copy)]
pub(crate) enum Halt {
    /// A name is not above the one before it, or a map has other keys than texts in order.
    NotPlain,
    /// An allocation was refused.
    Memory,
}

impl From<AllocError> for Halt {
    ghost from_gives = { λ _ e. e ≡ Memory };

    fn from(_e: AllocError) -> Halt {
        Halt::Memory
    }
}

/// A datum, with those that stand in it. Inlined, so that an item of a list that is no container costs no
/// call of this function.
#[cycle(write)]
#[inline(always)]
pub(crate) fn write_datum(out: &mut Writer, datum: &Datum) -> Result<(), Halt>
    ensures put { Puts result out.old out.new (datum_json (view datum.now)) }
    ensures written { OnOk result (IsWritten (view datum.now)) }
{
    match datum {
        Datum::Null => out.null()?,
        Datum::Text(text) => out.string(text.as_str())?,
        Datum::Integer(number) => out.i64(*number)?,
        Datum::Decimal(text) => out.string(text.as_str())?,
        Datum::Boolean(flag) => out.boolean(*flag)?,
        Datum::Date(text) => out.string(text.as_str())?,
        Datum::Instant(seconds) => out.i64(*seconds)?,
        Datum::Ref(name) => out.string(name.as_str())?,
        Datum::List(items) => write_items(out, items)?,
        Datum::Map(entries) => write_entries(out, entries)?,
        Datum::Optional(content) => write_optional(out, content)?,
    }
    Ok(())
}

/// A list of these items.
#[cycle(write)]
fn write_items(out: &mut Writer, items: &Vec<Datum>) -> Result<(), Halt>
    ensures put { Puts result out.old out.new (datum_json (datum.list (items_view items.now.items))) }
    ensures written { OnOk result (IsWritten (datum.list (items_view items.now.items))) }
{
    out.begin_array()?;
    for item in items {
        write_datum(out, item)?;
    }
    out.end_array()?;
    Ok(())
}

/// A map of these entries.
#[cycle(write)]
fn write_entries(out: &mut Writer, entries: &Vec<(Datum, Datum)>) -> Result<(), Halt>
    ensures put { Puts result out.old out.new (datum_json (datum.map (entries_view entries.now.items))) }
    ensures written { OnOk result (IsWritten (datum.map (entries_view entries.now.items))) }
{
    if !keys_fit(entries) {
        return Err(Halt::NotPlain);
    }
    out.begin_object()?;
    for entry in entries {
        out.key(key_of(&entry.0))?;
        write_datum(out, &entry.1)?;
    }
    out.end_object()?;
    Ok(())
}

/// An optional that holds this datum: none where it is null.
#[cycle(write)]
fn write_optional(out: &mut Writer, content: &Datum) -> Result<(), Halt>
    ensures put { Puts result out.old out.new (datum_json (datum.optional (view content.now))) }
    ensures written { OnOk result (IsWritten (datum.optional (view content.now))) }
{
    out.begin_array()?;
    if !is_null(content) {
        write_datum(out, content)?;
    }
    out.end_array()?;
    Ok(())
}

/// An object of the fields that aren't null.
fn put_fields(out: &mut Writer, object: &Object) -> Result<(), Halt>
    ensures { Puts result out.old out.new (json.object (fields_json (object_view object.now).fields)) }
{
    out.begin_object()?;
    let mut last = "";
    for (name, datum) in object.fields() {
        if !is_null(datum) {
            if last >= name {
                return Err(Halt::NotPlain);
            }
            out.key(name)?;
            write_datum(out, datum)?;
            last = name;
        }
    }
    out.end_object()?;
    Ok(())
}

/// The text that a writer, which began with nothing, has written.
fn text_of(out: Writer) -> String
    requires { out.before ≡ [] }
    ensures { string_bytes result ≡ print out.tokens }
{
    match String::from_utf8(out.into_inner()) {
        Ok(text) => text,
        Err(_) => unreachable!(),
    }
}

/// The text of an object's fields that can be written as they come.
fn fields_in_order(alloc: Global, object: &Object) -> Result<String, Halt>
    ensures { IfOk result (λ s. string_bytes s
        ≡ compact_text (json.object (fields_json (object_view object.now).fields))) }
{
    let mut out = Writer::new(Vec::with_capacity(alloc, 512)?);
    put_fields(&mut out, object)?;
    Ok(text_of(out))
}

/// The text of an object's fields that aren't null: their JSON with no space, and members ascending by
/// the bytes of their names.
pub fn fields_text(alloc: Global, object: &Object) -> Result<String, AllocError>
    ensures { IfOk result (λ s. string_bytes s
        ≡ compact_text (json.object (fields_json (object_view object.now).fields))) }
{
    match fields_in_order(alloc, object) {
        Ok(text) => Ok(text),
        Err(Halt::Memory) => Err(AllocError),
        Err(Halt::NotPlain) => write_fields(alloc, object)?.to_string(alloc),
    }
}

/// A text as JSON: in quotes, with the shortest escapes.
pub fn quoted(alloc: Global, text: &str) -> Result<String, AllocError>
    ensures { IfOk result (λ s. string_bytes s ≡ quoted text.now) }
{
    let mut out = Writer::new(Vec::with_capacity(alloc, text.len() + 2)?);
    out.string(text)?;
    Ok(text_of(out))
}
