//! Pattern: all of a text matches a regular expression, as the `regex` crate reads it.
ghost use Rattle.std.specs.Prelude.{◌≡◌, Err, IfOk, IfErr, string_bytes, is_some, option_map, codes};
ghost use Rattle.regex.specs.Patterns.{find_str};
ghost use Rattle.regex.specs.Strings.{regex_pattern};
ghost use Rattle.fv_datum.specs.Data.{text};
ghost use Rattle.fv_datum.specs.View.{view};
ghost use Rattle.fv_builtin.specs.Given.{IsBuilt, answer_of, text_at};
ghost use Rattle.fv_builtin.specs.Matches.{anchored, IsReadFrom};
ghost use Rattle.fv_builtin.specs.Passing.{passes, text_of};
ghost use Rattle.fv_builtin.specs.declared.name.BuiltinName.TheVariants.{Pattern};

use crate::compiled::Compiled;
use crate::fault::BuiltinFault;
use crate::given::text_of;
use fv_datum::{Attrs, Datum};
use regex::{Error, Regex};
use std::alloc::{AllocError, Global};

/// The text `regexp`.
pub(crate) fn regexp_of(attrs: &Attrs) -> Option<&str>
    ensures { option_map (λ s. s.now) result ≡ text_at Pattern attrs.now (codes "regexp") }
{
    text_of(attrs.find("regexp"))
}

/// The pattern of a text between anchors, so that it matches all of a text or nothing.
pub(crate) fn build(alloc: Global, regexp: &str) -> Result<Regex, BuiltinFault>
    ensures read { IfOk result (IsReadFrom (anchored regexp.now)) }
    ensures refused { IfErr result (λ fault. IsBuilt regexp.now (Err fault)) }
{
    let source = anchored(alloc, regexp)?;
    answer_of(Regex::new(alloc, source.as_str()))
}

/// The answer of the `regex` crate: `BadPattern` where none is built, except for want of memory.
fn answer_of(built: Result<Regex, Error>) -> Result<Regex, BuiltinFault>
    ensures { result ≡ answer_of built }
{
    match built {
        Ok(regex) => Ok(regex),
        Err(Error::OutOfMemory) => Err(BuiltinFault::Memory),
        Err(_) => Err(BuiltinFault::BadPattern),
    }
}

fn anchored(alloc: Global, regexp: &str) -> Result<String, AllocError>
    ensures { IfOk result (λ s. string_bytes s ≡ anchored regexp.now) }
{
    format!(in alloc; "\\A(?:{regexp})\\z")
}

pub(crate) fn is_match(alloc: Global, pattern: &Compiled, datum: &Datum) -> Result<bool, AllocError>
    ensures { IfOk result (λ b. b ≡ passes (λ s. is_some (find_str (regex_pattern pattern.now.regex.now) s 0))
        (text_of (view datum.now))) }
{
    match datum {
        Datum::Text(text) => pattern.finds(alloc, text.as_str()),
        _ => Ok(true),
    }
}
