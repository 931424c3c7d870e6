//! Explaining: what declarations declare, of a file or in force in a database.
use crate::comparing::compare;
use crate::failure::Failure;
use crate::in_force::declarations_in;
use crate::schemas::write_schema;
use crate::telling::tell;
use crate::writing::write_as_is;
use formd_task::{Explain, Source, Telling, read_file};
use fv_engine_lines::Output;
use fv_registry::RuleSet;

/// The text of declarations. Refused as a file not readable, or as `declarations_in` refuses a database.
fn text_at(rt: &HostRuntime, source: Source<'_>) -> Result<Vec<u8>, Failure> {
    match source {
        Source::File(path) => Ok(read_file(rt.alloc(), rt, path)?),
        Source::Database(path) => declarations_in(rt, path),
    }
}

/// Explains declarations with some rules, as is asked.
///
/// Refused as declarations not readable or a database not taken, those that are explained before those
/// over which they are told; then, but where their text alone is asked, by the fault of the
/// declarations, once it is written as `tell` writes it; then as a form that isn't declared, then as
/// not written; for want of memory at any place.
pub(crate) fn explain_as_asked<R: RuleSet, W: Output>(
    rt: &HostRuntime,
    asked: Explain<'_>,
    registry: &R,
    output: &mut W,
) -> Result<(), Failure> {
    let alloc = rt.alloc();
    let text = text_at(rt, asked.declarations)?;
    match asked.telling {
        Telling::Words => tell(alloc, &text, false, registry, output),
        Telling::Json => tell(alloc, &text, true, registry, output),
        Telling::Text => write_as_is(&text, output),
        Telling::Schema(form) => write_schema(alloc, &text, form, registry, output),
        Telling::Over(source, as_json) => {
            let old = text_at(rt, source)?;
            compare(alloc, &text, &old, as_json, registry, output)
        }
    }
}
