//! Messages. Where a value is not of the form, a function here answers `None`.
ghost use Rattle.std.specs.Prelude.{◌≡◌, IfOk, option_map, string_bytes};
ghost use Rattle.serde_json.specs.View.{view as json_view};
ghost use Rattle.fv_declare_definition.specs.Written.{message_of as spec_message};

use serde_json::Value;
use std::alloc::{AllocError, Global};

/// The template of a message, by the member `message` of a value: none where it has no such member.
pub fn message_of<'a>(value: &'a Value) -> Option<Option<&'a str>>
    ensures { option_map (λ o. option_map (λ t. t.now) o) result ≡ spec_message (json_view value.now) }
{
    match value.get("message") {
        None => Some(None),
        Some(told) => match told.as_str() {
            None => None,
            Some(template) => Some(Some(template)),
        },
    }
}

/// The same template, as a text of its own.
pub(crate) fn own_message_of(
    alloc: Global,
    value: &Value,
) -> Result<Option<Option<String>>, AllocError>
    ensures { IfOk result (λ o. option_map (λ m. option_map string_bytes m) o ≡ spec_message (json_view value.now)) }
{
    match message_of(value) {
        None => Ok(None),
        Some(None) => Ok(Some(None)),
        Some(Some(template)) => Ok(Some(Some(String::from_str(alloc, template)?))),
    }
}
