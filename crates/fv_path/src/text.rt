//! Paths are read from their texts, node by node.
ghost use Rattle.std.specs.Prelude.{◌≡◌, ◌∷◌, ◌++◌, ◌^◌, ◌<◌, ℕ, List, true, IfOk, IsTrue, MatchOption, decimal, ⊤, ◌↔◌, slice_index, length};
ghost use Rattle.std.specs.List.{prefix_len, list_all};
ghost use Rattle.std.specs.Char.{is_ascii_digit};
ghost use Rattle.fv_datum.specs.Name.{continues_name};
ghost use Rattle.fv_path.specs.Nodes.{PathNode, is_field, is_index, is_key, is_part};
ghost use Rattle.fv_path.specs.Paths.{IsPath};
ghost use Rattle.fv_path.specs.Reading.{FindsNode};
ghost use Rattle.fv_path.specs.Texts.{nodes_text, path_text_of};

use crate::key::{key_of, string_len};
use crate::node::Node;
use crate::path::Path;
use fv_datum::{Name, is_name};
use std::alloc::{AllocError, Global};
use std::str;

/// The path that a text is: none where it is the text of no path.
pub fn read(alloc: Global, text: &str) -> Result<Option<Path>, AllocError>
    ensures { IfOk result (λ o. MatchOption o
        ((ns : List PathNode) → IsPath ns → path_text_of ns ≡ text.now → ⊥)
        (λ p. IsPath p × (path_text_of p ≡ text.now))) }
{
    let mut path = Path::new(alloc);
    if text.is_empty() {
        return Ok(Some(path));
    }
    let Some((first, rest)) = read_field(alloc, text.as_bytes())? else {
        return Ok(None);
    };
    path.push(first)?;
    read_rest(alloc, path, rest)
}

/// The path that begins with the nodes of a path and goes on as a text does.
fn read_rest(alloc: Global, begun: Path, text: &[u8]) -> Result<Option<Path>, AllocError>
    requires { IsPath begun }
    ensures path { IfOk result (λ o. MatchOption o ⊤ IsPath) }
    ensures rest { IfOk result (λ o. MatchOption o
        ((ms : List PathNode) → IsPath (begun ++ ms) → nodes_text ms ≡ text.now → ⊥)
        (λ p. (ms : List PathNode) × (p ≡ begun ++ ms) × (nodes_text ms ≡ text.now))) }
{
    let mut path = begun;
    let mut rest = text;
    while !rest.is_empty() {
        let Some((node, after)) = read_node(alloc, rest)? else {
            return Ok(None);
        };
        if !path.can_push(&node) {
            return Ok(None);
        }
        path.push(node)?;
        rest = after;
    }
    Ok(Some(path))
}

/// The node that a text behind a path's first node begins with, and what stands behind it.
fn read_node(alloc: Global, text: &[u8]) -> Result<Option<(Node, &[u8])>, AllocError>
    ensures { IfOk result (FindsNode (λ _. true) text.now) }
{
    match text {
        [b'.', b'<', ..] => Ok(read_named(text)),
        [b'.', rest @ ..] => read_field(alloc, rest),
        [b'[', b'"', ..] => read_key(alloc, &text[1..]),
        [b'[', rest @ ..] => Ok(read_index(rest)),
        _ => Ok(None),
    }
}

/// The list element, map key or map value that a text begins with.
fn read_named(text: &[u8]) -> Option<(Node, &[u8])>
    ensures { FindsNode is_part text.now result }
{
    if let Some(rest) = text.strip_prefix(b".<list element>") {
        return Some((Node::ListElement, rest));
    }
    if let Some(rest) = text.strip_prefix(b".<map key>") {
        return Some((Node::MapKey, rest));
    }
    let rest = text.strip_prefix(b".<map value>")?;
    Some((Node::MapValue, rest))
}

/// The field whose name a text begins with, its dot left out.
fn read_field(alloc: Global, text: &[u8]) -> Result<Option<(Node, &[u8])>, AllocError>
    ensures { IfOk result (FindsNode is_field (46 ∷ text.now)) }
{
    let (name, rest) = text.split_at(name_len(text));
    match str::from_utf8(name) {
        Ok(name) if is_name(name) => {
            let name = Name::new(String::from_str(alloc, name)?);
            Ok(Some((Node::Field(name), rest)))
        }
        _ => Ok(None),
    }
}

/// How many of a text's first bytes are ASCII letters, ASCII digits and `_`.
fn name_len(text: &[u8]) -> usize
    ensures { result ≡ prefix_len continues_name text.now }
{
    text.iter()
        .take_while(|b| b.is_ascii_alphanumeric() || **b == b'_')
        .count()
}

/// The key that a text begins with: its JSON string, and the closing bracket.
fn read_key(alloc: Global, text: &[u8]) -> Result<Option<(Node, &[u8])>, AllocError>
    ensures { IfOk result (FindsNode is_key (91 ∷ text.now)) }
{
    let Some(len) = string_len(text) else {
        return Ok(None);
    };
    let (string, rest) = text.split_at(len);
    let Some(rest) = behind_bracket(rest) else {
        return Ok(None);
    };
    match key_of(alloc, string)? {
        Some(key) => Ok(Some((Node::Key(key), rest))),
        None => Ok(None),
    }
}

/// What stands behind a closing bracket.
fn behind_bracket(text: &[u8]) -> Option<&[u8]>
    ensures { MatchOption result ((rest : List ℕ) → text.now ≡ 93 ∷ rest → ⊥) (λ rest. text.now ≡ 93 ∷ rest.now) }
{
    text.strip_prefix(b"]")
}

/// The index that a text begins with: its digits, and the closing bracket.
fn read_index(text: &[u8]) -> Option<(Node, &[u8])>
    ensures { FindsNode is_index (91 ∷ text.now) result }
{
    let (digits, rest) = text.split_at(digits_len(text));
    let index = index_of(digits)?;
    let rest = behind_bracket(rest)?;
    Some((Node::Index(index), rest))
}

/// How many of a text's first bytes are ASCII digits.
fn digits_len(text: &[u8]) -> usize
    ensures { result ≡ prefix_len is_ascii_digit text.now }
{
    text.iter().take_while(|b| b.is_ascii_digit()).count()
}

/// The index that digits write: none with a zero in front of another digit, or past 4294967295.
fn index_of(digits: &[u8]) -> Option<u32>
    requires { list_all is_ascii_digit digits.now ≡ true }
    ensures { MatchOption result ((n : ℕ) → n < 2 ^ 32 → digits.now ≡ decimal n → ⊥)
        (λ n. digits.now ≡ decimal n) }
{
    if has_leading_zero(digits) {
        return None;
    }
    match str::from_utf8(digits) {
        Ok(digits) => digits.parse::<u32>().ok(),
        Err(_) => None,
    }
}

/// Whether a zero stands in front of another digit.
fn has_leading_zero(digits: &[u8]) -> bool
    ensures { IsTrue result ↔ ((slice_index digits.now 0 ≡ 48) × (1 < length digits.now)) }
{
    matches!(digits, [b'0', _, ..])
}
