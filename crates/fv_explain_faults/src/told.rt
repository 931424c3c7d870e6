//! A fault in words.
ghost use Rattle.std.specs.Prelude.{◌≡◌};
ghost use Rattle.fv_explain_faults.specs.FaultNames.{untold_name};

use crate::shown::Named;
use fv_datum::is_name;
use std::alloc::{AllocError, AllocFailed, Global};
use std::fmt;

/// Where a fault is, by the members on the way to it, and what is wrong there in plain words: as both are written.
#[derive(Drop)]
pub struct Found {
    pub alloc: Global,
    pub place: String,
    pub text: String,
}

/// Why a fault isn't told.
#[derive(Clone, Copy, Debug, PartialEq, Eq)]
pub enum Untold {
    /// Its place is none in the declarations.
    Absent,
    /// An allocation was refused.
    Memory,
}

impl Untold {
    /// The fault's name.
    pub fn name(&self) -> &str
        ensures { result.now ≡ untold_name self.now }
    {
        match self {
            Untold::Absent => "Absent",
            Untold::Memory => "Memory",
        }
    }
}

/// What stands at a place, or why it isn't told.
pub type Told<T> = Result<T, Untold>;

/// Whether a fault was written.
pub type Written = Told<()>;

/// Adds words to what has `add`: `say!(out; "type {name} isn't declared")`; to a `Found`, once it is gone on to a
/// member of a member and so on: `say!(out at "forms", form, "root"; "type {name} isn't declared")`.
#[macro_export]
macro_rules! say {
    ($out:ident at $($name:expr),+; $($words:tt)+) => {{
        $out.path(&[$($name),+])?;
        $out.add(format_args!($($words)+))
    }};
    ($out:expr; $($words:tt)+) => {
        $out.add(format_args!($($words)+))
    };
}

impl Found {
    /// No place and no words yet.
    pub fn new(alloc: Global) -> Found {
        let (place, text) = (String::new(alloc), String::new(alloc));
        Found { alloc, place, text }
    }

    /// Adds words on what is wrong.
    pub fn add<D: fmt::Display + Drop>(&mut self, words: D) -> Written {
        Ok(self.text.write(words)?)
    }

    /// Goes on to a member. A name that is none stands in brackets, another behind a dot, unless it is the first or
    /// stands behind a colon.
    pub fn member(&mut self, name: &str) -> Written {
        if !is_name(name) {
            return Ok(write!(self.place, "[{}]", Named(name))?);
        }
        let place = self.place.as_str();
        let is_first = place.is_empty() || place.ends_with(": ");
        self.place.push_str(if is_first { "" } else { "." })?;
        Ok(self.place.push_str(name)?)
    }

    /// Goes on to a member of a member and so on.
    pub fn path(&mut self, names: &[&str]) -> Written {
        for name in names {
            self.member(name)?;
        }
        Ok(())
    }

    /// Goes on to an item of an array.
    pub fn item(&mut self, index: usize) -> Written {
        Ok(write!(self.place, "[{index}]")?)
    }
}

impl fmt::Display for Found {
    fn fmt<W: fmt::Write>(&self, f: &mut fmt::Formatter<W>) -> fmt::Result {
        if !self.place.is_empty() {
            write!(f, "{}: ", self.place)?;
        }
        f.write_str(self.text.as_str())
    }
}

impl From<AllocError> for Untold {
    fn from(_e: AllocError) -> Untold {
        Untold::Memory
    }
}

impl<T: Drop> From<AllocFailed<T>> for Untold {
    fn from(_e: AllocFailed<T>) -> Untold {
        Untold::Memory
    }
}

/// Adds words as "a, b and c"; others where there is none.
pub(crate) fn push_words(out: &mut Found, words: &[&str], others: &str) -> Written {
    match words.split_last() {
        None => out.add(others),
        Some((last, [])) => out.add(last),
        Some((last, before)) => {
            let before = before.join(out.alloc, ", ")?;
            say!(out; "{before} and {last}")
        }
    }
}
