//! What attributes become.
ghost use Rattle.std.specs.Prelude.{◌≡◌, ◌++◌, OnOk, string_bytes};
ghost use Rattle.fv_message.specs.Expanded.{expansion_text};
ghost use Rattle.fv_message.specs.Full.{shown};

use crate::expansion::Expansion;
use fv_datum::{Attribute, Attrs};
use std::alloc::{AllocError, Global};

/// Writes what a key's text becomes by these attributes.
pub(crate) fn write_expansion(
    alloc: Global,
    text: &mut String,
    expansion: &Expansion,
    attributes: &Attrs,
) -> Result<(), AllocError>
    ensures { OnOk result (string_bytes text.new ≡ string_bytes text.old ++ expansion_text attributes.now expansion.now) }
{
    for slot in &expansion.slots {
        text.push_str(slot.before.as_str())?;
        write_parameter(alloc, text, slot.name.as_str(), attributes)?;
    }
    text.push_str(expansion.rest.as_str())
}

/// Writes the text of the attribute of a name, else the name as a parameter with its braces: an integer
/// in decimal, a text as it is, `true` or `false`, texts as `[a, b]`.
#[tactic(auto, using(crate::proofs::Shown::joined_texts))]
pub(crate) fn write_parameter(
    alloc: Global,
    text: &mut String,
    name: &str,
    attributes: &Attrs,
) -> Result<(), AllocError>
    ensures { OnOk result (string_bytes text.new ≡ string_bytes text.old ++ shown attributes.now name.now) }
{
    match attributes.find(name) {
        None => write!(text, "{{{name}}}"),
        Some(Attribute::Integer(number)) => write!(text, "{number}"),
        Some(Attribute::Text(value)) => text.push_str(value.as_str()),
        Some(Attribute::Boolean(value)) => write!(text, "{value}"),
        Some(Attribute::Texts(values)) => {
            let list = values.join(alloc, ", ")?;
            write!(text, "[{list}]")
        }
    }
}
