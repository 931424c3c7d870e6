ghost use Rattle.std.specs.Prelude.{◌≡◌, true, false, is_some, IfOk, Ok, IfSome, option_map};
ghost use Rattle.serde_json.specs.View.{view as json_view};
ghost use Rattle.fv_datum.specs.Outcomes.{Gives};
ghost use Rattle.fv_datum.specs.Json.{spelled, plain, datum_read, string_of, integer_of, passing};
ghost use Rattle.fv_datum.specs.Data.{Data};
ghost use Rattle.fv_datum.specs.Days.{is_date};
ghost use Rattle.fv_datum.specs.Decimals.{is_decimal};
ghost use Rattle.fv_datum.specs.Kinds.{is_container, FitsKind};
ghost use Rattle.fv_datum.specs.Moments.{is_moment};
ghost use Rattle.fv_datum.specs.Name.{names};
ghost use Rattle.fv_datum.specs.Written.{datum_written};
ghost use Rattle.fv_datum.specs.View.{view};
ghost use Rattle.std.specs.Option.{option_and_then, ok_or};
ghost use Rattle.fv_datum.specs.declared.fault.DatumFault.TheVariants.{WrongKind};

use crate::datum::Datum;
use crate::day::day_of;
use crate::decimal::decimal_units;
use crate::fault::DatumFault;
use crate::kind::Kind;
use crate::moment::moment_ok;
use crate::name::{Name, is_name};
use serde_json::Value;
use std::alloc::Global;

/// The datum of a plain kind that a JSON value spells; `null` is null in every kind.
///
/// What `write_datum` gave for a datum of the kind is read as that datum. `WrongKind` where the
/// value spells no datum of the kind; `Memory` at any place.
pub fn read_datum(alloc: Global, kind: Kind, value: &Value) -> Result<Datum, DatumFault>
    requires { is_container kind ≡ false }
    ensures exact { Gives DatumFault.Memory view result (datum_read kind (json_view value.now)) }
    ensures fits { IfOk result (λ d. FitsKind kind (view d)) }
    ensures read_back { (d : Data) → FitsKind kind d → datum_written d ≡ Ok (json_view value.now)
        → Gives DatumFault.Memory view result (Ok d) }
{
    spelled_datum(alloc, kind, value)
}

/// The same, by the definition alone.
fn spelled_datum(alloc: Global, kind: Kind, value: &Value) -> Result<Datum, DatumFault>
    ensures { Gives DatumFault.Memory view result (datum_read kind (json_view value.now)) }
{
    if value.is_null() {
        return Ok(Datum::Null);
    }
    plain_datum(alloc, kind, value)
}

/// The same of a value other than null.
fn plain_datum(alloc: Global, kind: Kind, value: &Value) -> Result<Datum, DatumFault>
    ensures { Gives DatumFault.Memory view result (ok_or (plain kind (json_view value.now)) WrongKind) }
{
    match kind {
        Kind::Text => match value.as_str() {
            Some(text) => Ok(Datum::Text(String::from_str(alloc, text)?)),
            None => Err(DatumFault::WrongKind),
        },
        Kind::Integer => match value.as_i64() {
            Some(number) => Ok(Datum::Integer(number)),
            None => Err(DatumFault::WrongKind),
        },
        Kind::Decimal => match decimal_in(value) {
            Some(text) => Ok(Datum::Decimal(String::from_str(alloc, text)?)),
            None => Err(DatumFault::WrongKind),
        },
        Kind::Boolean => match value.as_bool() {
            Some(flag) => Ok(Datum::Boolean(flag)),
            None => Err(DatumFault::WrongKind),
        },
        Kind::Date => match date_in(value) {
            Some(text) => Ok(Datum::Date(String::from_str(alloc, text)?)),
            None => Err(DatumFault::WrongKind),
        },
        Kind::Instant => match moment_in(value) {
            Some(seconds) => Ok(Datum::Instant(seconds)),
            None => Err(DatumFault::WrongKind),
        },
        Kind::Ref => match name_in(value) {
            Some(text) => Ok(Datum::Ref(Name::new(String::from_str(alloc, text)?))),
            None => Err(DatumFault::WrongKind),
        },
        _ => Err(DatumFault::WrongKind),
    }
}

/// Whether a JSON value spells a datum of the plain kind, so that `read_datum` takes it.
pub fn spells_datum(kind: Kind, value: &Value) -> bool
    requires { is_container kind ≡ false }
    ensures { result ≡ is_some (spelled kind (json_view value.now)) }
{
    if value.is_null() {
        return true;
    }
    match kind {
        Kind::Text => value.is_string(),
        Kind::Integer => value.as_i64().is_some(),
        Kind::Decimal => decimal_in(value).is_some(),
        Kind::Boolean => value.is_boolean(),
        Kind::Date => date_in(value).is_some(),
        Kind::Instant => moment_in(value).is_some(),
        Kind::Ref => name_in(value).is_some(),
        _ => false,
    }
}

/// The decimal that a value is.
fn decimal_in(value: &Value) -> Option<&str>
    ensures { option_map (λ s. s.now) result ≡ string_of is_decimal (json_view value.now) }
{
    let text = value.as_str()?;
    if decimal_units(text).is_some() {
        Some(text)
    } else {
        None
    }
}

/// The date that a value is.
fn date_in(value: &Value) -> Option<&str>
    ensures { option_map (λ s. s.now) result ≡ string_of is_date (json_view value.now) }
{
    let text = value.as_str()?;
    if day_of(text).is_some() {
        Some(text)
    } else {
        None
    }
}

/// The name that a value is.
fn name_in(value: &Value) -> Option<&str>
    ensures text { option_map (λ s. s.now) result ≡ string_of names (json_view value.now) }
    ensures named { IfSome result (λ s. names s.now ≡ true) }
{
    let text = value.as_str()?;
    if is_name(text) { Some(text) } else { None }
}

/// The moment that a value is.
fn moment_in(value: &Value) -> Option<i64>
    ensures { result ≡ option_and_then (passing is_moment) (integer_of (json_view value.now)) }
{
    let seconds = value.as_i64()?;
    if moment_ok(seconds) {
        Some(seconds)
    } else {
        None
    }
}
