//! The lines of a comparison, as plain text or as JSON objects.
ghost use Rattle.std.specs.Prelude.{◌≡◌, false, IfOk, map, string_bytes};
ghost use Rattle.std.specs.Fmt.{WritesOnOk};
ghost use Rattle.fv_explain_over.specs.Lines.{line_text};
ghost use Rattle.fv_explain_over.specs.Places.{inside, item, place_of, quoted, quoted_character};

use fv_datum::is_name;
use serde::Serialize;
use std::alloc::{AllocError, Global};
use std::fmt;

/// Whether something was added.
pub(crate) type Written = Result<(), AllocError>;

/// A text as a JSON string in which no character ends a line.
#[derive(Clone, Copy)]
struct Quoted<'a>(&'a str);

/// Writes a character of a JSON string.
fn write_character<W: fmt::Write>(f: &mut fmt::Formatter<W>, character: char) -> fmt::Result
    ensures { WritesOnOk W.write_str_gives f.old result (quoted_character character) f.new }
{
    match character {
        '"' => f.write_str("\\\""),
        '\\' => f.write_str("\\\\"),
        '\u{0}'..='\u{1f}' | '\u{7f}'..='\u{9f}' | '\u{2028}' | '\u{2029}' => {
            let code = character as u32;
            write!(f, "\\u{code:04x}")
        }
        _ => f.write_char(character),
    }
}

/// Writes a text as a JSON string.
fn write_quoted<W: fmt::Write>(f: &mut fmt::Formatter<W>, text: &str) -> fmt::Result
    ensures { WritesOnOk W.write_str_gives f.old result (quoted text.now) f.new }
{
    f.write_char('"')?;
    for character in text.chars() {
        write_character(f, character)?;
    }
    f.write_char('"')
}

impl fmt::Display for Quoted<'_> {
    ghost use Rattle.std.specs.Prelude.{Some};
    ghost use Rattle.fv_explain_over.specs.Lines.{line_text};
    ghost use Rattle.fv_explain_over.specs.Places.{quoted};

    ghost output = { λ text. Some (quoted text.0.now) };

    fn fmt<W: fmt::Write>(&self, f: &mut fmt::Formatter<W>) -> fmt::Result {
        write_quoted(f, self.0)
    }
}

/// The place of a member of what stands at a place. A name that is none stands in brackets, another behind a dot,
/// unless it is the first.
pub(crate) fn inside(alloc: Global, place: &str, name: &str) -> Result<String, AllocError>
    ensures { IfOk result (λ s. string_bytes s ≡ inside place.now name.now) }
{
    if !is_name(name) {
        return format!(in alloc; "{place}[{}]", Quoted(name));
    }
    if place.is_empty() {
        return format!(in alloc; "{name}");
    }
    format!(in alloc; "{place}.{name}")
}

/// The place of an item of the array that stands at a place.
pub(crate) fn item(alloc: Global, place: &str, index: usize) -> Result<String, AllocError>
    ensures { IfOk result (λ s. string_bytes s ≡ item place.now index) }
{
    format!(in alloc; "{place}[{index}]")
}

/// The place that members lead to.
pub(crate) fn place_of(alloc: Global, names: &[&str]) -> Result<String, AllocError>
    ensures { IfOk result (λ s. string_bytes s ≡ place_of (map (λ name. name.now) names.now)) }
{
    let mut place = String::new(alloc);
    for name in names {
        place = inside(alloc, place.as_str(), name)?;
    }
    Ok(place)
}

/// A line.
#[derive(Clone, Copy, Serialize)]
#[serde(tag = "line", rename_all = "lowercase")]
pub(crate) enum OverLine<'a> {
    Added {
        place: &'a str,
    },
    Changed {
        place: &'a str,
    },
    Removed {
        place: &'a str,
    },
    /// What records have may not fit here any more, with the code and the name of the fault.
    Narrowed {
        place: &'a str,
        fault: &'a str,
        name: &'a str,
        text: &'a str,
    },
    /// Whether each record fits.
    Records {
        fit: bool,
        text: &'a str,
    },
}

impl fmt::Display for OverLine<'_> {
    ghost use Rattle.std.specs.Prelude.{Some};
    ghost use Rattle.fv_explain_over.specs.Lines.{line_text};

    ghost output = { λ line. Some (line_text line) };

    fn fmt<W: fmt::Write>(&self, f: &mut fmt::Formatter<W>) -> fmt::Result {
        match self {
            OverLine::Added { place } => write!(f, "added: {place}"),
            OverLine::Changed { place } => write!(f, "changed: {place}"),
            OverLine::Removed { place } => write!(f, "removed: {place}"),
            OverLine::Narrowed {
                place,
                fault,
                name,
                text,
            } => { write!(f, "may not fit: {place}: {fault} {name}: {text}") }
            OverLine::Records { text, .. } => f.write_str(text),
        }
    }
}

/// A line as plain text, or with `json` as a JSON object.
pub(crate) fn text_of(alloc: Global, json: bool, line: &OverLine) -> Result<String, AllocError>
    ensures plain { IfOk result (λ s. json ≡ false → string_bytes s ≡ line_text line.now) }
{
    if json {
        serde_json::to_string(alloc, line).map_err(|_| AllocError)
    } else {
        format!(in alloc; "{line}")
    }
}
