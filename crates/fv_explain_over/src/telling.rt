//! What declarations change over others, in lines.
ghost use Rattle.std.specs.Prelude.{◌≡◌, ◌↔◌, ◌++◌, ℕ, [], false, IsTrue, IfOk, List, OnOk, length, map, string_bytes};
ghost use Rattle.std.specs.List.{AllZip};
ghost use Rattle.fv_bundle.specs.Names.{object_types_view};
ghost use Rattle.fv_bundle.specs.TypesView.{types_view};
ghost use Rattle.fv_explain_over.specs.Lines.{IsTold, records_text};
ghost use Rattle.fv_explain_over.specs.Misfits.{IsMisfit};
ghost use Rattle.serde_json.specs.View.{view};
ghost use Rattle.fv_widening.specs.Narrowed.{narrowed};
ghost use Rattle.fv_widening.specs.Widens.{Widens};

use crate::differing::changed_lines;
use crate::lines::{OverLine, text_of};
use crate::narrowed::misfit_of;
use fv_bundle::{TypeNames, Types};
use fv_widening::{Narrowed, narrowings};
use serde_json::Value;
use std::alloc::{AllocError, Global};

/// Declarations, by what is compared of them.
#[derive(Clone, Copy)]
pub struct Declared<'a> {
    /// Their JSON.
    pub value: &'a Value,
    pub types: &'a Types,
    /// The forms, each with the name of its root's type.
    pub forms: &'a TypeNames<'a>,
}

/// What declarations change over others.
#[derive(Drop)]
pub struct Compared {
    /// The lines, each without its end.
    pub lines: Vec<String>,
    /// Whether each record of the others is read again.
    pub fit: bool,
}

/// The words on whether each record of others is read again.
fn records_text(fit: bool) -> &'static str
    ensures { result.now ≡ records_text fit }
{
    if fit {
        "every record of the old declarations is well-typed under these: a redeclare is never C14; no comparison tells violations (C10)"
    } else {
        "a record of the old declarations may not be well-typed under these: a redeclare may be C14 at the places above"
    }
}

/// Adds a line for each place where records may not fit any more.
fn add_misfits(
    lines: &mut Vec<String>,
    alloc: Global,
    json: bool,
    old: Declared,
    new: Declared,
    found: &[Narrowed],
) -> Result<(), AllocError>
    ensures { OnOk result ((told : List (List ℕ)) × (map string_bytes lines.new.items
        ≡ map string_bytes lines.old.items ++ told) × (length told ≡ length found.now)
        × (json ≡ false → AllZip (IsMisfit (types_view old.entry.types.now) (object_types_view old.entry.forms.now)
        (types_view new.entry.types.now)) found.now told)) }
{
    for narrowed in found {
        let misfit = misfit_of(alloc, old, new, *narrowed)?;
        lines.push(text_of(alloc, json, &misfit.line())?)?;
    }
    Ok(())
}

/// What declarations add, change and remove over others, a line each, plain or with `json` as a JSON object;
/// then where a record of the others may not be read again under them, and by which fault; at the end whether each is.
/// Each is exactly where nothing is narrowed: then they have all types, fields and forms of the others, as these are.
///
/// Refused for want of memory at any place.
pub fn tell_over(
    alloc: Global,
    new: Declared,
    old: Declared,
    json: bool,
) -> Result<Compared, AllocError>
    ensures widens { IfOk result (λ told. IsTrue told.fit
        → Widens (types_view old.entry.types.now) (object_types_view old.entry.forms.now)
        (types_view new.entry.types.now) (object_types_view new.entry.forms.now)) }
    ensures exact { IfOk result (λ told. IsTrue told.fit
        ↔ (narrowed (types_view old.entry.types.now) (object_types_view old.entry.forms.now)
        (types_view new.entry.types.now) (object_types_view new.entry.forms.now) ≡ [])) }
    // The changes, the line of each narrowing, and whether all fit.
    ensures lines { IfOk result (λ told. IsTold json (view old.entry.value.now) (view new.entry.value.now)
        (types_view old.entry.types.now) (object_types_view old.entry.forms.now) (types_view new.entry.types.now) told.fit
        (narrowed (types_view old.entry.types.now) (object_types_view old.entry.forms.now)
        (types_view new.entry.types.now) (object_types_view new.entry.forms.now))
        (map string_bytes told.lines.items)) }
{
    let mut lines = changed_lines(alloc, json, old.value, new.value)?;
    let found = narrowings(alloc, old.types, old.forms, new.types, new.forms)?;
    add_misfits(&mut lines, alloc, json, old, new, &found)?;
    let fit = found.is_empty();
    let text = records_text(fit);
    lines.push(text_of(alloc, json, &OverLine::Records { fit, text })?)?;
    Ok(Compared { lines, fit })
}
