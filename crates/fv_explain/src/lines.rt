//! The lines of an explanation, as plain text or as JSON objects.
ghost use Rattle.std.specs.Prelude.{◌≡◌, ◌∷◌, [], ℕ, List, false, IfOk, OnOk, map, string_bytes};
ghost use Rattle.std.specs.Fmt.{WritesOnOk};
ghost use Rattle.fv_datum.specs.Attributes.{attribute_view};
ghost use Rattle.fv_explain.specs.Adding.{Adds};
ghost use Rattle.fv_explain.specs.Attributes.{texts_text, value_text};
ghost use Rattle.fv_explain.specs.Lines.{line_text};

use fv_datum::{Attribute, Attrs};
use fv_explain_faults::{Quoted, Told, Untold, Written};
use serde::{Described, Serialize, Serializer};
use std::alloc::Global;
use std::fmt;

/// The attributes in effect; as plain text ` max=3 min=1`.
#[derive(Clone, Copy)]
pub(crate) struct Attributes<'a>(pub(crate) &'a Attrs);

impl Described for Attributes<'_> {}

impl Serialize for Attributes<'_> {
    fn serialize<S: Serializer>(&self, out: &mut S) -> Result<(), S::Error> {
        out.begin_map(None)?;
        for (name, value) in self.0.entries().iter() {
            out.key(name.as_str())?;
            match value {
                Attribute::Integer(number) => out.i64(*number)?,
                Attribute::Text(text) => out.str(text.as_str())?,
                Attribute::Boolean(flag) => out.bool(*flag)?,
                Attribute::Texts(texts) => texts.serialize(out)?,
            }
        }
        out.end_map()
    }
}

/// Writes texts as an array of JSON strings.
fn write_texts<W: fmt::Write>(f: &mut fmt::Formatter<W>, texts: &[String]) -> fmt::Result
    ensures { WritesOnOk W.write_str_gives f.old result (texts_text (map string_bytes texts.now)) f.new }
{
    let Some((first, others)) = texts.split_first() else {
        return f.write_str("[]");
    };
    write!(f, "[{}", Quoted(first.as_str()))?;
    for other in others {
        write!(f, ",{}", Quoted(other.as_str()))?;
    }
    f.write_char(']')
}

/// Writes the value of an attribute.
fn write_value<W: fmt::Write>(f: &mut fmt::Formatter<W>, value: &Attribute) -> fmt::Result
    ensures { WritesOnOk W.write_str_gives f.old result (value_text (attribute_view value.now)) f.new }
{
    match value {
        Attribute::Integer(number) => write!(f, "{number}"),
        Attribute::Text(text) => write!(f, "{}", Quoted(text.as_str())),
        Attribute::Boolean(flag) => write!(f, "{flag}"),
        Attribute::Texts(texts) => write_texts(f, texts),
    }
}

impl fmt::Display for Attributes<'_> {
    ghost use Rattle.std.specs.Prelude.{Some};
    ghost use Rattle.fv_explain.specs.Attributes.{attributes_text};

    ghost output = { λ attributes. Some (attributes_text attributes.0.now) };

    fn fmt<W: fmt::Write>(&self, f: &mut fmt::Formatter<W>) -> fmt::Result {
        for (name, value) in self.0.entries().iter() {
            write!(f, " {name}=")?;
            write_value(f, value)?;
        }
        Ok(())
    }
}

/// Names with some words between them.
#[derive(Clone, Copy)]
struct Joined<'a>(&'a [&'a str], &'a str);

impl fmt::Display for Joined<'_> {
    ghost use Rattle.std.specs.Prelude.{Some};
    ghost use Rattle.fv_explain.specs.Lines.{joined, names_in};

    ghost output = { λ names. Some (joined names.1.now (names_in names.0.now)) };

    fn fmt<W: fmt::Write>(&self, f: &mut fmt::Formatter<W>) -> fmt::Result {
        let Some((first, others)) = self.0.split_first() else {
            return Ok(());
        };
        f.write_str(first)?;
        for other in others {
            f.write_str(self.1)?;
            f.write_str(other)?;
        }
        Ok(())
    }
}

/// How much there is of something, and how much may be.
#[derive(Clone, Copy, Serialize)]
pub(crate) struct Limit {
    pub(crate) used: usize,
    pub(crate) most: usize,
}

impl fmt::Display for Limit {
    ghost use Rattle.std.specs.Prelude.{Some};
    ghost use Rattle.fv_explain.specs.Lines.{limit_text};

    ghost output = { λ limit. Some (limit_text limit.used limit.most) };

    fn fmt<W: fmt::Write>(&self, f: &mut fmt::Formatter<W>) -> fmt::Result {
        write!(f, "{} of {}", self.used, self.most)
    }
}

/// A constraint where it is used.
#[derive(Drop, Serialize)]
pub(crate) struct UseLine<'a> {
    pub(crate) number: usize,
    pub(crate) place: &'a str,
    pub(crate) constraint: &'a str,
    pub(crate) attributes: Attributes<'a>,
    pub(crate) groups: Vec<&'a str>,
    pub(crate) message: String,
}

/// A constraint that a used one is composed of.
#[derive(Drop, Serialize)]
pub(crate) struct PartLine<'a> {
    pub(crate) number: usize,
    /// The number of the used one.
    #[serde(rename = "use")]
    pub(crate) used: usize,
    pub(crate) constraint: &'a str,
    pub(crate) attributes: Attributes<'a>,
    /// The one that is reported where this one refuses, by its number.
    pub(crate) reported: Option<usize>,
    /// And by its name.
    #[serde(skip)]
    pub(crate) reported_name: &'a str,
    pub(crate) message: String,
}

/// A form: the types that are validated with the root, and those that only plain references lead to.
#[derive(Drop, Serialize)]
pub(crate) struct FormLine<'a> {
    pub(crate) name: &'a str,
    pub(crate) root: &'a str,
    pub(crate) groups: Vec<&'a str>,
    pub(crate) valid: Vec<&'a str>,
    pub(crate) plain: Vec<&'a str>,
}

/// The limits that are used: of fields the most that a type has, of groups with `Default`.
#[derive(Clone, Copy, Serialize)]
pub(crate) struct LimitsLine {
    pub(crate) constraints: Limit,
    pub(crate) fields: Limit,
    pub(crate) forms: Limit,
    pub(crate) groups: Limit,
}

/// A line.
#[derive(Drop, Serialize)]
#[serde(tag = "line", rename_all = "lowercase")]
pub(crate) enum ExplainedLine<'a> {
    Constraint(UseLine<'a>),
    Part(PartLine<'a>),
    /// A plain group: those that it is and inherits.
    Group {
        name: &'a str,
        inherits: Vec<&'a str>,
    },
    /// A sequence: the groups that it stands for, in order.
    #[serde(rename = "group")]
    Sequence {
        name: &'a str,
        sequence: Vec<&'a str>,
    },
    Form(FormLine<'a>),
    Warning {
        place: &'a str,
        text: &'a str,
    },
    Fault {
        code: &'a str,
        name: &'a str,
        place: &'a str,
        text: &'a str,
    },
    Limits(LimitsLine),
}

impl fmt::Display for UseLine<'_> {
    ghost use Rattle.std.specs.Prelude.{Some};
    ghost use Rattle.fv_explain.specs.Lines.{use_line_text};

    ghost output = { λ line. Some (use_line_text line) };

    fn fmt<W: fmt::Write>(&self, f: &mut fmt::Formatter<W>) -> fmt::Result {
        let (groups, message) = (Joined(&self.groups, ", "), Quoted(self.message.as_str()));
        write!(f, "{} {} {}", self.number, self.place, self.constraint)?;
        write!(f, "{} groups {groups} message {message}", self.attributes)
    }
}

/// As which constraint one is reported that a used one is composed of, or with which message.
#[derive(Clone, Copy)]
struct Reported<'a>(&'a PartLine<'a>);

impl fmt::Display for Reported<'_> {
    ghost use Rattle.std.specs.Prelude.{Some};
    ghost use Rattle.fv_explain.specs.Lines.{reported_text};

    ghost output = { λ line. Some (reported_text line.0.now) };

    fn fmt<W: fmt::Write>(&self, f: &mut fmt::Formatter<W>) -> fmt::Result {
        let line = self.0;
        match line.reported {
            None => f.write_str(" asks nothing itself"),
            Some(other) if other == line.number => {
                write!(f, " message {}", Quoted(line.message.as_str()))
            }
            Some(other) => write!(f, " reported as {other} {}", line.reported_name),
        }
    }
}

impl fmt::Display for PartLine<'_> {
    ghost use Rattle.std.specs.Prelude.{Some};
    ghost use Rattle.fv_explain.specs.Lines.{part_line_text};

    ghost output = { λ line. Some (part_line_text line) };

    fn fmt<W: fmt::Write>(&self, f: &mut fmt::Formatter<W>) -> fmt::Result {
        write!(
            f,
            "  {} {}{}{}",
            self.number,
            self.constraint,
            self.attributes,
            Reported(self)
        )
    }
}

/// What only plain references lead to; nothing where there is none.
#[derive(Clone, Copy)]
struct Held<'a>(&'a [&'a str]);

impl fmt::Display for Held<'_> {
    ghost use Rattle.std.specs.Prelude.{Some};
    ghost use Rattle.fv_explain.specs.Lines.{held_text, names_in};

    ghost output = { λ held. Some (held_text (names_in held.0.now)) };

    fn fmt<W: fmt::Write>(&self, f: &mut fmt::Formatter<W>) -> fmt::Result {
        if self.0.is_empty() {
            return Ok(());
        }
        write!(f, "; may hold {} by plain references", Joined(self.0, ", "))
    }
}

impl fmt::Display for FormLine<'_> {
    ghost use Rattle.std.specs.Prelude.{Some};
    ghost use Rattle.fv_explain.specs.Lines.{form_line_text};

    ghost output = { λ line. Some (form_line_text line) };

    fn fmt<W: fmt::Write>(&self, f: &mut fmt::Formatter<W>) -> fmt::Result {
        let (name, root, groups) = (self.name, self.root, Joined(&self.groups, ", "));
        let (valid, plain) = (Joined(&self.valid, ", "), Held(&self.plain));
        write!(
            f,
            "form {name}: root {root}; groups {groups}; reaches {valid} through valid{plain}"
        )
    }
}

impl fmt::Display for ExplainedLine<'_> {
    ghost use Rattle.std.specs.Prelude.{Some};
    ghost use Rattle.fv_explain.specs.Lines.{line_text};

    ghost output = { λ line. Some (line_text line) };

    fn fmt<W: fmt::Write>(&self, f: &mut fmt::Formatter<W>) -> fmt::Result {
        match self {
            ExplainedLine::Constraint(line) => line.fmt(f),
            ExplainedLine::Part(line) => line.fmt(f),
            ExplainedLine::Group { name, inherits } => {
                write!(f, "group {name}: {}", Joined(inherits, ", "))
            }
            ExplainedLine::Sequence { name, sequence } => {
                write!(f, "group {name}: first {}", Joined(sequence, ", then "))
            }
            ExplainedLine::Form(line) => line.fmt(f),
            ExplainedLine::Warning { place, text } => write!(f, "warning: {place}: {text}"),
            ExplainedLine::Fault {
                code,
                name,
                place,
                text,
            } => { write!(f, "{place}: {code} {name}: {text}") }
            ExplainedLine::Limits(line) => write!(
                f,
                "limits: {} constraints, {} fields of a type, {} forms, {} groups with Default",
                line.constraints, line.fields, line.forms, line.groups,
            ),
        }
    }
}

/// A line as plain text, or with `json` as a JSON object.
pub(crate) fn text_of(alloc: Global, json: bool, line: &ExplainedLine) -> Told<String>
    ensures { IfOk result (λ s. json ≡ false → string_bytes s ≡ line_text line.now) }
{
    if json {
        serde_json::to_string(alloc, line).map_err(|_| Untold::Memory)
    } else {
        Ok(format!(in alloc; "{line}")?)
    }
}

/// Lines as they are written.
#[derive(Drop)]
pub(crate) struct Lines {
    pub(crate) alloc: Global,
    pub(crate) json: bool,
    pub(crate) texts: Vec<String>,
}

impl Lines {
    /// Adds a line.
    pub(crate) fn add(&mut self, line: &ExplainedLine) -> Written
        ensures { OnOk result ((told : List ℕ) × Adds self.old (told ∷ []) self.new
            × (self.old.json ≡ false → told ≡ line_text line.now)) }
    {
        Ok(self.texts.push(text_of(self.alloc, self.json, line)?)?)
    }
}
