//! The JSON strings of keys.
ghost use Rattle.std.specs.Prelude.{◌≡◌, ◌++◌, ◌≤◌, ℕ, List, length, Some, IfOk, IfSome, MatchOption, string_bytes, IsUtf8};
ghost use Rattle.json.specs.Print.{quoted};

use serde_json::Value;
use std::alloc::{AllocError, Global};

/// A key as a compact JSON string.
pub(crate) fn json_string(alloc: Global, key: &str) -> Result<String, AllocError>
    ensures { IfOk result (λ s. string_bytes s ≡ quoted key.now) }
{
    Value::try_from_str(alloc, key)?.to_string(alloc)
}

/// The key whose compact JSON string a text is: none where it is another text, also where it is a
/// JSON string that would be written otherwise.
pub(crate) fn key_of(alloc: Global, text: &[u8]) -> Result<Option<String>, AllocError>
    ensures { IfOk result (λ o. MatchOption o ((k : List ℕ) → IsUtf8 k → text.now ≡ quoted k → ⊥)
        (λ s. text.now ≡ quoted (string_bytes s))) }
{
    let value = match Value::from_slice(alloc, text) {
        Ok(value) => value,
        Err(error) if error.is_memory() => return Err(AllocError),
        Err(_) => return Ok(None),
    };
    let Some(key) = value.as_str() else {
        return Ok(None);
    };
    let string = json_string(alloc, key)?;
    if string.as_bytes() != text {
        return Ok(None);
    }
    Ok(Some(String::from_str(alloc, key)?))
}

/// How many bytes the JSON string takes that a text begins with, its quotes included: none where it
/// has no closing quote.
pub(crate) fn string_len(text: &[u8]) -> Option<usize>
    ensures within { IfSome result (λ n. n ≤ length text.now) }
    ensures found { (k rest : List ℕ) → text.now ≡ quoted k ++ rest → result ≡ Some (length (quoted k)) }
{
    let mut escaped = false;
    for i in 1..text.len() {
        match text[i] {
            _ if escaped => escaped = false,
            b'"' => return Some(i + 1),
            b => escaped = b == b'\\',
        }
    }
    None
}
