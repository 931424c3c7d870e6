//! Patterns for readers of JSON Schema, which know those of ECMA-262 and the like.
//!
//! A pattern is read as the crate `regex` reads it and written anew. Of a text of ASCII alone the new one takes what the
//! old one does, or more; a text with another character it takes where the old one may match such a character at all: what
//! is a digit there, and how many units an emoji has, isn't the same for all readers.
use regex_class::Class;
use regex_hir::{Hir, Look};
use regex_syntax::{Config, ErrorKind, parse};
use std::alloc::{AllocError, Global};

/// How many characters of ASCII there are.
const ASCII: u8 = 128;

/// A pattern that is written.
#[derive(Drop)]
struct Written {
    text: String,
    /// Whether it may match characters that aren't of ASCII, of which the text says less.
    is_wide: bool,
    /// Whether an assertion is left out.
    is_loose: bool,
}

/// How many characters of ASCII a class has.
fn members(class: &Class) -> usize {
    (0..ASCII)
        .filter(|byte| class.contains(u32::from(*byte)))
        .count()
}

/// Whether a character of ASCII stands for something else in a pattern.
fn is_special(character: char) -> bool {
    matches!(
        character,
        '\\' | '^' | '$' | '.' | '*' | '+' | '?' | '(' | ')' | '[' | ']' | '{' | '}' | '|'
    )
}

/// Whether a pattern stands for itself in front of a count, or in groups of its own.
fn is_whole(hir: &Hir) -> bool {
    match hir {
        Hir::Bytes(_) | Hir::Chars(_) | Hir::Capture { .. } => true,
        Hir::Literal(bytes) => bytes.len() == 1,
        _ => false,
    }
}

impl Written {
    fn push(&mut self, text: &str) -> Result<(), AllocError> {
        self.text.push_str(text)
    }

    /// Adds a character of ASCII that stands for itself, of a class or behind another.
    fn add_plain(&mut self, byte: u8, is_escaped: bool) -> Result<(), AllocError> {
        if byte < b' ' || byte > b'~' {
            return Ok(write!(self.text, "\\x{byte:02x}")?);
        }
        if is_escaped {
            self.push("\\")?;
        }
        self.text.push(char::from(byte))
    }

    fn add_literal(&mut self, bytes: &[u8]) -> Result<(), AllocError> {
        let Ok(text) = std::str::from_utf8(bytes) else {
            self.is_wide = true;
            return self.push("[\\s\\S]*");
        };
        for character in text.chars() {
            match u8::try_from(u32::from(character)) {
                Ok(byte) if byte < ASCII => self.add_plain(byte, is_special(character))?,
                _ => {
                    self.is_wide = true;
                    self.text.push(character)?;
                }
            }
        }
        Ok(())
    }

    /// Adds the characters from one to another, of a class.
    fn add_range(&mut self, first: u8, last: u8) -> Result<(), AllocError> {
        let is_escaped = |byte: u8| matches!(byte, b'\\' | b'^' | b'[' | b']' | b'-');
        self.add_plain(first, is_escaped(first))?;
        if last.saturating_sub(first) > 1 {
            self.push("-")?;
        }
        if last > first {
            self.add_plain(last, is_escaped(last))?;
        }
        Ok(())
    }

    /// Adds the characters of ASCII that are in a class, or with `others` those that aren't.
    fn add_ranges(&mut self, class: &Class, others: bool) -> Result<(), AllocError> {
        let mut first = None;
        for byte in 0..=ASCII {
            let is_in = byte < ASCII && class.contains(u32::from(byte)) != others;
            match first {
                None if is_in => first = Some(byte),
                Some(from) if !is_in => {
                    self.add_range(from, byte.saturating_sub(1))?;
                    first = None;
                }
                _ => {}
            }
        }
        self.push("]")
    }

    fn add_class(&mut self, class: &Class) -> Result<(), AllocError> {
        let is_wide = !class.is_within(u32::from(ASCII).saturating_sub(1));
        self.is_wide |= is_wide;
        match members(class) {
            0 if is_wide => self.push("[^\\x00-\\x7f]"),
            0 => self.push("[^\\s\\S]"),
            128 => self.push("[\\s\\S]"),
            count if is_wide && count > 64 => {
                self.push("[^")?;
                self.add_ranges(class, true)
            }
            _ => {
                self.push("[")?;
                self.add_ranges(class, false)
            }
        }
    }

    /// Adds an assertion, or nothing where readers don't know it.
    fn add_look(&mut self, look: Look) -> Result<(), AllocError> {
        match look {
            Look::Start => self.push("^"),
            Look::End => self.push("$"),
            Look::WordAscii | Look::WordUnicode => {
                self.is_wide = true;
                self.push("\\b")
            }
            Look::WordAsciiNegate | Look::WordUnicodeNegate => {
                self.is_wide = true;
                // not by `\B`, which some readers don't match with an empty text
                self.push("(?!\\b)")
            }
            _ => {
                self.is_loose = true;
                Ok(())
            }
        }
    }

    /// Adds how often something may stand.
    fn add_count(&mut self, min: u32, max: Option<u32>) -> Result<(), AllocError> {
        match (min, max) {
            (0, None) => self.push("*"),
            (1, None) => self.push("+"),
            (0, Some(1)) => self.push("?"),
            (_, None) => Ok(write!(self.text, "{{{min},}}")?),
            (_, Some(max)) if min == max => Ok(write!(self.text, "{{{min}}}")?),
            (_, Some(max)) => Ok(write!(self.text, "{{{min},{max}}}")?),
        }
    }

    #[cycle(add)]
    fn add_group(&mut self, hir: &Hir) -> Result<(), AllocError> {
        self.push("(?:")?;
        self.add(hir)?;
        self.push(")")
    }

    #[cycle(add)]
    fn add_all(&mut self, parts: &[Hir], between: &str) -> Result<(), AllocError> {
        for (number, part) in parts.iter().enumerate() {
            if number > 0 {
                self.push(between)?;
            }
            match part {
                Hir::Alternation(_) => self.add_group(part)?,
                _ => self.add(part)?,
            }
        }
        Ok(())
    }

    #[cycle(add)]
    fn add(&mut self, hir: &Hir) -> Result<(), AllocError> {
        match hir {
            Hir::Empty => Ok(()),
            Hir::Literal(bytes) => self.add_literal(bytes),
            Hir::Bytes(class) | Hir::Chars(class) => self.add_class(class),
            Hir::Look(look) => self.add_look(*look),
            Hir::Repetition { min, max, sub, .. } => {
                if is_whole(sub) {
                    self.add(sub)?;
                } else {
                    self.add_group(sub)?;
                }
                self.add_count(*min, *max)
            }
            Hir::Capture { sub, .. } => self.add_group(sub),
            Hir::Concat(parts) => self.add_all(parts, ""),
            Hir::Alternation(parts) => self.add_all(parts, "|"),
        }
    }
}

/// The pattern of a `regexp` that all of a text has to match, and whether it takes texts that the `regexp` doesn't match.
/// None where there is none to be written.
pub(crate) fn pattern_of(
    alloc: Global,
    regexp: &str,
) -> Result<Option<(String, bool)>, AllocError> {
    let anchored = format!(in alloc; "\\A(?:{regexp})\\z")?;
    let parsed = match parse(alloc, anchored.as_str(), &Config::default()) {
        Ok(parsed) => parsed,
        Err(error) if matches!(error.kind, ErrorKind::OutOfMemory) => return Err(AllocError),
        Err(_) => return Ok(None),
    };
    let mut written = Written {
        text: String::new(alloc),
        is_wide: false,
        is_loose: false,
    };
    written.add(&parsed.hir)?;
    if written.is_wide {
        let text = written.text;
        return Ok(Some((format!(in alloc; "[^\\x00-\\x7f]|{text}")?, true)));
    }
    let is_loose = written.is_loose;
    Ok(Some((written.text, is_loose)))
}
