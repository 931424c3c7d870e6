ghost use Rattle.std.specs.Prelude.{◌≡◌, ℕ, List, false, None, Ok, Err, All, IfOk, IfSome, OnOk, map, string_bytes};
ghost use Rattle.fv_declare_judging.specs.Declares.{Declares};
ghost use Rattle.fv_declare_schema.specs.Declarations.{Declarations};
ghost use Rattle.fv_explain.specs.Adding.{Adds};
ghost use Rattle.fv_explain.specs.Lines.{line_text};
ghost use Rattle.fv_explain.specs.Explained.{IsFaultLine, IsWarning, TellsDeclared, TellsFault, TellsLines};

use crate::declared::{add_constraints, add_forms, add_groups, limits};
use crate::lines::{ExplainedLine, Lines, text_of};
use fv_datum::read_json;
use fv_declare::{DeclFault, PlacedFault, read_placed};
use fv_declare_draft::{Draft, draft_of, uses_in};
use fv_declare_schema::Schema;
use fv_explain_faults::{Found, Told, Untold, Written, locate, to_use};
use fv_explain_warnings::warnings;
use fv_registry::RuleSet;
use std::alloc::{AllocError, Global};

/// Declarations explained.
#[derive(Drop)]
pub struct Explained {
    /// The lines, each without its end.
    pub lines: Vec<String>,
    /// The first fault, where they are refused.
    pub fault: Option<DeclFault>,
}

/// The places of all uses of constraints in a draft.
fn places_of(alloc: Global, draft: &Draft) -> Told<Vec<String>> {
    let uses = uses_in(alloc, &draft.types)?;
    let mut places = Vec::with_capacity(alloc, uses.len())?;
    for number in 0..uses.len() {
        let mut found = Found::new(alloc);
        to_use(&mut found, &draft.types, &uses, number)?;
        places.push(found.place)?;
    }
    Ok(places)
}

/// The line of a warning.
fn warning_line(warning: &Found) -> ExplainedLine
    ensures { IsWarning (line_text result) }
{
    ExplainedLine::Warning {
        place: warning.place.as_str(),
        text: warning.text.as_str(),
    }
}

/// Adds the lines of warnings.
fn add_warnings(lines: &mut Lines, warned: &[Found]) -> Written
    ensures { OnOk result ((more : List (List ℕ)) × Adds lines.old more lines.new
        × (lines.old.json ≡ false → All IsWarning more)) }
{
    for warning in warned {
        let line = warning_line(warning);
        lines.add(&line)?;
    }
    Ok(())
}

/// Adds the lines of a draft that is taken, and of its warnings.
fn add_draft<R: RuleSet>(
    lines: &mut Lines,
    rules: &R,
    schema: &Schema,
    draft: &Draft,
    bytes: &[u8],
) -> Written
    ensures { OnOk result ((more : List (List ℕ)) × Adds lines.old more lines.new
        × TellsDeclared lines.old.json schema.now more) }
{
    let places = places_of(lines.alloc, draft)?;
    add_constraints(lines, schema, &draft.messages, &places)?;
    add_groups(lines, schema.groups())?;
    add_forms(lines, schema)?;
    add_warnings(
        lines,
        &warnings(lines.alloc, rules, schema, bytes, draft, &places)?,
    )?;
    Ok(())
}

/// The lines of declarations that are taken as a schema: those of constraints, of groups and of forms, warnings
/// behind them, and at the end the limits that are used.
fn taken_lines<R: RuleSet>(
    alloc: Global,
    rules: &R,
    schema: &Schema,
    bytes: &[u8],
    json: bool,
) -> Told<Vec<String>>
    ensures { IfOk result (λ lines. TellsLines json schema.now (map string_bytes lines.items)) }
{
    let value = read_json(alloc, bytes).map_err(|_| Untold::Memory)?;
    let draft = draft_of(alloc, &value)?.ok_or(Untold::Absent)?;
    let texts = Vec::new(alloc);
    let mut lines = Lines { alloc, json, texts };
    add_draft(&mut lines, rules, schema, &draft, bytes)?;
    let mut texts = lines.texts;
    texts.push(text_of(alloc, json, &ExplainedLine::Limits(limits(schema)))?)?;
    Ok(texts)
}

/// The line of a fault: its place, and what is wrong there.
fn fault_line<R: RuleSet>(
    alloc: Global,
    rules: &R,
    bytes: &[u8],
    placed: PlacedFault,
    json: bool,
) -> Told<String>
    ensures { IfOk result (λ line. json ≡ false → IsFaultLine placed.fault (string_bytes line)) }
{
    let found = locate(alloc, rules, bytes, placed)?;
    let line = ExplainedLine::Fault {
        code: placed.fault.code(),
        name: placed.fault.name(),
        place: found.place.as_str(),
        text: found.text.as_str(),
    };
    text_of(alloc, json, &line)
}

/// What declarations declare with some rules, a line each, plain or with `json` as a JSON object, and warnings
/// behind it; or, where they are refused, one line: the place of the first fault, and what is wrong there.
/// That fault is the one of `read_schema`.
///
/// Refused for want of memory at any place.
pub fn explain<R: RuleSet>(
    alloc: Global,
    rules: &R,
    bytes: &[u8],
    json: bool,
) -> Result<Explained, AllocError>
    ensures taken { IfOk result (λ e. e.fault ≡ None
        → ((s : Declarations) × Declares (R.known rules.now) bytes.now (Ok s))) }
    ensures refused { IfOk result (λ e. IfSome e.fault (λ f. Declares (R.known rules.now) bytes.now (Err f))) }
    // Each use of a constraint has its lines, each declared group and each form has one, warnings are behind, and at the
    // end are the limits that the declarations use.
    ensures lines { IfOk result (λ e. e.fault ≡ None
        → ((s : Declarations) × Declares (R.known rules.now) bytes.now (Ok s)
        × TellsLines json s (map string_bytes e.lines.items))) }
    // A fault is told in one line.
    ensures told { IfOk result (λ e. IfSome e.fault (λ f. TellsFault json f (map string_bytes e.lines.items))) }
{
    match read_placed(alloc, rules, bytes) {
        Ok(schema) => match taken_lines(alloc, rules, &schema, bytes, json) {
            Ok(lines) => Ok(Explained { lines, fault: None }),
            Err(_) => Err(AllocError),
        },
        Err(placed) if matches!(placed.fault, DeclFault::Memory) => Err(AllocError),
        Err(placed) => {
            let line = fault_line(alloc, rules, bytes, placed, json);
            let lines = vec![in alloc; line.map_err(|_| AllocError)?]?;
            let fault = Some(placed.fault);
            Ok(Explained { lines, fault })
        }
    }
}
