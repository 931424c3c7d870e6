//! Values, constraints and kinds as they are shown in a line; as which constraint each is reported; keys of messages.
ghost use Rattle.std.specs.Fmt.{WritesOnOk};
ghost use Rattle.fv_explain_faults.specs.Quoted.{quoted, quoted_character};

use crate::told::{Told, Untold};
use fv_builtin::{BuiltinName, builtin_named};
use fv_constraint_tree::{Node, Occurrence, Test};
use fv_datum::{AttributeKind, Kind};
use fv_declare_draft::MessageDraft;
use std::alloc::Global;
use std::fmt;

/// The most characters of a value that are shown.
const MOST_SHOWN: usize = 60;

/// Writes a character of a JSON string. One isn't shown as it is that may end a line, or move what stands in it.
fn write_character<W: fmt::Write>(f: &mut fmt::Formatter<W>, character: char) -> fmt::Result
    ensures { WritesOnOk W.write_str_gives f.old result (quoted_character character) f.new }
{
    match character {
        '"' => f.write_str("\\\""),
        '\\' => f.write_str("\\\\"),
        '\n' => f.write_str("\\n"),
        '\r' => f.write_str("\\r"),
        '\t' => f.write_str("\\t"),
        '\u{0}'..='\u{1f}' | '\u{7f}'..='\u{9f}' | '\u{2028}' | '\u{2029}' => {
            let code = character as u32;
            write!(f, "\\u{code:04x}")
        }
        _ => f.write_char(character),
    }
}

/// Writes a text as a JSON string.
fn write_quoted<W: fmt::Write>(f: &mut fmt::Formatter<W>, text: &str) -> fmt::Result
    ensures { WritesOnOk W.write_str_gives f.old result (quoted text.now) f.new }
{
    f.write_char('"')?;
    for character in text.chars() {
        write_character(f, character)?;
    }
    f.write_char('"')
}

/// A text as a JSON string in which no character ends a line.
#[derive(Clone, Copy)]
pub struct Quoted<'a>(pub &'a str);

impl fmt::Display for Quoted<'_> {
    ghost use Rattle.std.specs.Prelude.{Some};
    ghost use Rattle.fv_explain_faults.specs.Quoted.{quoted};

    ghost output = { λ text. Some (quoted text.0.now) };

    fn fmt<W: fmt::Write>(&self, f: &mut fmt::Formatter<W>) -> fmt::Result {
        write_quoted(f, self.0)
    }
}

/// A text as a JSON string, cut at 60 characters.
#[derive(Clone, Copy)]
pub struct Named<'a>(pub &'a str);

impl fmt::Display for Named<'_> {
    fn fmt<W: fmt::Write>(&self, f: &mut fmt::Formatter<W>) -> fmt::Result {
        match self.0.char_indices().nth(MOST_SHOWN) {
            None => write!(f, "{}", Quoted(self.0)),
            Some((at, _)) => write!(f, "{}…", Quoted(self.0.get(..at).unwrap_or(""))),
        }
    }
}

/// A constraint by its name, and the used one that it is composed of where it isn't that itself.
#[derive(Clone, Copy)]
pub struct Who<'a> {
    pub constraint: &'a str,
    pub used: Option<&'a str>,
}

impl<'a> Who<'a> {
    /// The constraint of a number in the tree of a used one, which is the first.
    pub fn in_tree(used: &'a str, number: usize, constraint: &'a str) -> Who<'a> {
        let used = if number == 0 { None } else { Some(used) };
        Who { constraint, used }
    }
}

impl fmt::Display for Who<'_> {
    fn fmt<W: fmt::Write>(&self, f: &mut fmt::Formatter<W>) -> fmt::Result {
        f.write_str(self.constraint)?;
        match self.used {
            None => Ok(()),
            Some(used) => write!(f, ", of which {used} is composed,"),
        }
    }
}

/// The constraints in the tree of a use, in preorder, each with the number of the one that is reported where it
/// refuses: of the outermost around it that reports as one, else its own; none where it asks nothing itself.
pub fn reported(alloc: Global, occurrence: &Occurrence) -> Told<Vec<(&Node, Option<usize>)>> {
    let mut reported = Vec::with_capacity(alloc, occurrence.size())?;
    let mut single: usize = 0;
    let mut silent: usize = 0;
    for number in 0..occurrence.size() {
        let node = occurrence.node(number).ok_or(Untold::Absent)?;
        if number >= silent && node.single {
            single = number;
            silent = number.saturating_add(node.below).saturating_add(1);
        }
        let by = match node.test {
            Test::Nothing if !node.single => None,
            _ if number < silent => Some(single),
            _ => Some(number),
        };
        reported.push((node, by))?;
    }
    Ok(reported)
}

/// All kinds of data, each with the word for it, as it is declared.
pub(crate) static KINDS: [(Kind, &'static str); 10] = [
    (Kind::Text, "text"),
    (Kind::Integer, "integer"),
    (Kind::Decimal, "decimal"),
    (Kind::Boolean, "boolean"),
    (Kind::Date, "date"),
    (Kind::Instant, "instant"),
    (Kind::Ref, "ref"),
    (Kind::List, "list"),
    (Kind::Map, "map"),
    (Kind::Optional, "optional"),
];

/// The names of all attributes of built-in constraints, which their messages have as parameters.
pub static ATTRIBUTES: [&'static str; 7] = [
    "value",
    "inclusive",
    "integer",
    "fraction",
    "min",
    "max",
    "regexp",
];

/// The word for a kind of data, as it is declared.
pub fn kind_word(kind: Kind) -> &'static str {
    let found = KINDS.iter().find(|(other, _)| *other == kind);
    found.map_or("", |(_, word)| *word)
}

/// The word for a kind of attributes, as it is declared.
pub(crate) fn attribute_word(kind: AttributeKind) -> &'static str {
    match kind {
        AttributeKind::Integer => "integer",
        AttributeKind::Text => "text",
        AttributeKind::Boolean => "boolean",
        AttributeKind::Texts => "texts",
    }
}

/// The built-in constraint whose message a key is.
pub fn built_in_key(key: &str) -> Option<BuiltinName> {
    let name = key.strip_prefix("jakarta.validation.constraints.")?;
    builtin_named(name.strip_suffix(".message")?)
}

/// The number of the user's message of a key.
pub fn find_message(messages: &[MessageDraft], key: &str) -> Option<usize> {
    let found = messages.binary_search_by(|message| message.key.cmp(key));
    found.ok()
}
