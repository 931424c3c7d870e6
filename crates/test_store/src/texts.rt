//! Texts with names in them, which stand for other texts, and with words between brackets: `⟦7..9: r#
//! ⟧` for the lines `r7` and `r8`, `⟦7..30 by 10: r#-r#+1 ⟧` for `r7-r8 r17-r18 r27-r28 `, `⟦20× [⟧` for 20
//! times `[`, and `⟦char a0⟧` for the character of that hexadecimal number.
use anyhow::{Context, Result};
use std::alloc::Global;

/// A text with, in the place of each name, its text from the same place of a row. Both are written behind a
/// bar, with one between each two.
pub(crate) fn filled(alloc: Global, text: &str, heads: &str, row: &str) -> Result<String> {
    let heads = heads.strip_prefix("| ").context("no names")?;
    let row = row.strip_prefix("| ").context("no row")?;
    let mut text = String::from_str(alloc, text)?;
    for (name, meant) in heads.split(" | ").zip(row.split(" | ")) {
        text = text.replace(alloc, name, meant)?;
    }
    Ok(text)
}

/// A text with, in the place of each name, what a line `NAME := TEXT` says of it.
fn named(alloc: Global, names: &str, text: &str) -> Result<String> {
    let mut text = String::from_str(alloc, text)?;
    for line in names.lines() {
        if let Some((name, meant)) = line.split_once(" := ") {
            text = text.replace(alloc, name, meant)?;
        }
    }
    Ok(text)
}

/// Adds an item in which `#` is a number, and `#+3` the third behind it.
fn push_numbered(out: &mut String, item: &str, number: u32) -> Result<()> {
    let mut parts = item.split('#');
    out.push_str(parts.next().unwrap_or(""))?;
    for part in parts {
        let (more, rest) = match part.strip_prefix("+") {
            Some(rest) => rest.split_at_checked(1).context("no digit behind a sum")?,
            None => ("0", part),
        };
        let number = number.saturating_add(more.parse::<u32>()?);
        write!(out, "{number}{rest}")?;
    }
    Ok(())
}

/// Adds an item for each number of a range `FROM..TO`, or for each so many `FROM..TO by STEP`.
fn push_items(out: &mut String, range: &str, item: &str) -> Result<()> {
    let (range, step) = range.split_once(" by ").unwrap_or((range, "1"));
    let (from, to) = range.split_once("..").context("a range without an end")?;
    let (from, step) = (from.parse::<u32>()?, step.parse::<u32>()?);
    for number in from..to.parse::<u32>()? {
        if number.saturating_sub(from).checked_rem(step) == Some(0) {
            push_numbered(out, item, number)?;
        }
    }
    Ok(())
}

/// Adds what a word between brackets stands for.
fn push_word(out: &mut String, word: &str) -> Result<()> {
    if let Some((count, text)) = word.split_once("× ") {
        for _ in 0..count.parse::<u32>()? {
            out.push_str(text)?;
        }
    } else if let Some(code) = word.strip_prefix("char ") {
        let code = u32::from_str_radix(code, 16)?;
        out.push(char::from_u32(code).context("a character's number")?)?;
    } else {
        let (range, item) = word.split_once(": ").context("a word without an item")?;
        push_items(out, range, item)?;
    }
    Ok(())
}

/// A text with each name and then each word between brackets replaced by what it stands for.
pub(crate) fn expanded(alloc: Global, names: &str, text: &str) -> Result<String> {
    let text = named(alloc, names, text)?;
    let mut out = String::new(alloc);
    let mut parts = text.as_str().split('⟦');
    out.push_str(parts.next().unwrap_or(""))?;
    for part in parts {
        let (word, rest) = part.split_once('⟧').context("a bracket has no end")?;
        push_word(&mut out, word)?;
        out.push_str(rest)?;
    }
    Ok(out)
}
