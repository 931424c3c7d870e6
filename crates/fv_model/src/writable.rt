ghost use Rattle.std.specs.Prelude.{◌≡◌, ◌↔◌, ◌&&◌, IsTrue};
ghost use Rattle.fv_datum.specs.Written.{keys_fit};
ghost use Rattle.fv_datum.specs.View.{view, items_view, entries_view};
ghost use Rattle.fv_model.specs.Writables.{is_writable, items_writable, entries_writable};
ghost use Rattle.fv_model.specs.Writing.{IsWritten};

use fv_datum::{Datum, keys_fit};

/// Whether a datum can be written: the keys of each map in it are texts in order.
pub(crate) fn is_writable(datum: &Datum) -> bool
    ensures { IsTrue result ↔ IsWritten (view datum.now) }
{
    is_orderly(datum)
}

#[cycle(orderly)]
fn is_orderly(datum: &Datum) -> bool
    ensures { result ≡ is_writable (view datum.now) }
{
    match datum {
        Datum::List(items) => items_orderly(items),
        Datum::Map(entries) => map_orderly(entries),
        Datum::Optional(content) => is_orderly(content),
        _ => true,
    }
}

#[cycle(orderly)]
fn items_orderly(items: &Vec<Datum>) -> bool
    ensures { result ≡ items_writable (items_view items.now.items) }
{
    for item in items {
        if !is_orderly(item) {
            return false;
        }
    }
    true
}

#[cycle(orderly)]
fn map_orderly(entries: &Vec<(Datum, Datum)>) -> bool
    ensures { result ≡ (keys_fit (entries_view entries.now.items) && entries_writable (entries_view entries.now.items)) }
{
    keys_fit(entries) && entries_orderly(entries)
}

#[cycle(orderly)]
fn entries_orderly(entries: &Vec<(Datum, Datum)>) -> bool
    ensures { result ≡ entries_writable (entries_view entries.now.items) }
{
    for entry in entries {
        if !is_orderly(&entry.1) {
            return false;
        }
    }
    true
}
