//! Cycles of keys.
ghost use Rattle.std.specs.Prelude.{◌≡◌, map, option_map, IfOk, string_bytes};
ghost use Rattle.fv_message.specs.Judged.{IsMisspelt};
ghost use Rattle.fv_message.specs.Table.{all_messages};
ghost use Rattle.fv_message.specs.Views.{messages_view};
ghost use Rattle.fv_message.specs.Whereabouts.{name_at, IsRingOf};

use crate::table::Table;
use fv_ring::ring;
use indexmap::IndexMap;
use std::alloc::{AllocError, Global};

/// The keys of these numbers.
fn names_of(alloc: Global, messages: &Table, keys: &[usize]) -> Result<Vec<String>, AllocError>
    ensures { IfOk result (λ names. map string_bytes names.items ≡ map (name_at messages.now) keys.now) }
{
    let mut names = Vec::new(alloc);
    for key in keys {
        names.push(String::from_str(alloc, messages.name(*key))?)?;
    }
    Ok(names)
}

/// Keys, of the user's messages or of the built-in ones, of which the text of each has the next as a
/// parameter, and that of the last the first; `None` where no key's text leads back to that key. What is
/// told of messages that aren't well written, as `MessageSyntax` says, means nothing.
pub fn key_ring(
    alloc: Global,
    user: IndexMap<String, String>,
) -> Result<Option<Vec<String>>, AllocError>
    ensures { let given = messages_view user in (IsMisspelt given → ⊥)
        → IfOk result (λ found. IsRingOf (all_messages given) (option_map (λ names. map string_bytes names.items) found)) }
{
    let messages = Table::new(alloc, user)?;
    let edges = messages.edges(alloc)?;
    match ring(alloc, &edges)? {
        None => Ok(None),
        Some(keys) => Ok(Some(names_of(alloc, &messages, &keys)?)),
    }
}

/// The key of a number among all keys: the user's, and behind them those of the built-in messages that
/// the user gives no text; empty where there is none.
pub fn key_name(
    alloc: Global,
    user: IndexMap<String, String>,
    number: usize,
) -> Result<String, AllocError>
    ensures { IfOk result (λ name. string_bytes name ≡ name_at (all_messages (messages_view user)) number) }
{
    let messages = Table::new(alloc, user)?;
    String::from_str(alloc, messages.name(number))
}
