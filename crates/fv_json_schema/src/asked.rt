//! What constraints ask of the data at a place, as far as a schema says it.
ghost use Rattle.std.specs.Prelude.{◌≡◌, ◌≢◌, ◌↔◌, ℤ, ◌≤ℤ◌, ◌<◌, ◌^◌, true, max, min, OnOk, FitsSigned, unsigned_abs};
ghost use Rattle.std.specs.Int.{w64};
ghost use Rattle.fv_builtin.specs.Views.{builtin_view};
ghost use Rattle.fv_datum.specs.Data.{Data};
ghost use Rattle.fv_datum.specs.declared.kind.Kind.{Kind};
ghost use Rattle.fv_json_schema.specs.Asked.{Adds, AddsAll, IsOf, Takes, is_from, is_up_to, HasBoundsOf, IsSoundFrom, SaysFrom, IsSoundUpTo, SaysUpTo, TakesDigits, SaysDigits};
ghost use Rattle.fv_json_schema.specs.Bounds.{units_of};

use crate::bound::{
    decimals_from, decimals_of_digits, decimals_up_to, most_of_digits, whole_from, whole_up_to,
};
use crate::regexp::pattern_of;
use fv_builtin::Builtin;
use fv_constraint_tree::{Node, Occurrence, Test};
use fv_datum::{Attribute, Kind};
use std::alloc::{AllocError, Global};

/// The most UTF-8 bytes of a text, and the most entries of a list or of a map.
const MOST: u32 = 65_536;

/// The first and the last instant.
const INSTANTS: (i64, i64) = (-62_135_596_800, 253_402_128_000);

/// A pattern for texts in which some character is no white space of ASCII.
const INK: &str = "[^\\x09-\\x0d ]";

/// Whether something was asked; the fault is that of memory.
type Done = Result<(), AllocError>;

/// What is asked of the data of a kind.
#[derive(Drop)]
pub(crate) struct Asked<'a> {
    alloc: Global,
    kind: Kind,
    /// Whether null is refused.
    pub(crate) refuses_null: bool,
    /// Whether everything but null is refused.
    pub(crate) refuses_data: bool,
    pub(crate) takes_true: bool,
    pub(crate) takes_false: bool,
    /// The least and the greatest whole number.
    pub(crate) least: i64,
    pub(crate) most: i64,
    /// The least and the greatest size: of a text in UTF-16 code units.
    pub(crate) smallest: u32,
    pub(crate) largest: u32,
    /// What texts have to match, decimals among them.
    pub(crate) patterns: Vec<String>,
    /// The constraints that aren't said, or not wholly.
    pub(crate) left_out: Vec<&'a str>,
}

/// The least number of units that whole numbers from a bound, or without `inclusive` above it, have.
fn included_from(bound: i128, inclusive: bool) -> i128
    ensures { (n : ℤ) → FitsSigned w64 n → (is_from bound inclusive (units_of n) ≡ true) ↔ (result ≤ℤ units_of n) }
{
    if inclusive {
        bound
    } else {
        bound.saturating_add(1)
    }
}

/// The greatest number of units that whole numbers up to a bound, or without `inclusive` below it, have.
fn included_up_to(bound: i128, inclusive: bool) -> i128
    ensures { (n : ℤ) → FitsSigned w64 n → (is_up_to bound inclusive (units_of n) ≡ true) ↔ (units_of n ≤ℤ result) }
{
    if inclusive {
        bound
    } else {
        bound.saturating_sub(1)
    }
}

impl<'a> Asked<'a> {
    /// What is asked of all data of a kind.
    pub(crate) fn new(alloc: Global, kind: Kind) -> Asked<'a>
        ensures kind { result.kind ≡ kind }
        ensures takes { (d : Data) → IsOf d kind → Takes result d }
    {
        let (least, most) = if kind == Kind::Instant {
            INSTANTS
        } else {
            (i64::MIN, i64::MAX)
        };
        Asked {
            alloc,
            kind,
            refuses_null: false,
            refuses_data: false,
            takes_true: true,
            takes_false: true,
            least,
            most,
            smallest: 0,
            largest: MOST,
            patterns: Vec::new(alloc),
            left_out: Vec::new(alloc),
        }
    }

    /// Names a constraint that isn't said, or not wholly.
    fn leave_out(&mut self, name: &'a str) -> Done
        ensures { OnOk result (self.new ≡ record self.old { left_out = self.new.left_out }) }
    {
        if !self.left_out.contains(&name) {
            self.left_out.push(name)?;
        }
        Ok(())
    }

    /// Asks for numbers from a bound in units of 10^-9, without `inclusive` above it.
    fn ask_from(&mut self, bound: i128, inclusive: bool) -> Done
        ensures kept { OnOk result (self.new ≡ record self.old { least = self.new.least; patterns = self.new.patterns }) }
        ensures others { OnOk result (self.old.kind ≢ Kind.Integer → self.new.least ≡ self.old.least) }
        ensures sound { OnOk result (IsSoundFrom (is_from bound inclusive) self.old self.new) }
        ensures asked { OnOk result (self.old.least ≤ℤ self.new.least) }
        ensures said { OnOk result (SaysFrom (is_from bound inclusive) self.old self.new) }
    {
        let units = included_from(bound, inclusive);
        if self.kind == Kind::Decimal {
            self.patterns.push(decimals_from(self.alloc, units)?)?;
            return Ok(());
        }
        if self.kind == Kind::Integer {
            if let Some(whole) = whole_from(units) {
                self.least = self.least.max(whole);
            }
        }
        Ok(())
    }

    /// Asks for numbers up to a bound in units of 10^-9, without `inclusive` below it.
    fn ask_up_to(&mut self, bound: i128, inclusive: bool) -> Done
        ensures kept { OnOk result (self.new ≡ record self.old { most = self.new.most; patterns = self.new.patterns }) }
        ensures others { OnOk result (self.old.kind ≢ Kind.Integer → self.new.most ≡ self.old.most) }
        ensures sound { OnOk result (IsSoundUpTo (is_up_to bound inclusive) self.old self.new) }
        ensures asked { OnOk result (self.new.most ≤ℤ self.old.most) }
        ensures said { OnOk result (SaysUpTo (is_up_to bound inclusive) self.old self.new) }
    {
        let units = included_up_to(bound, inclusive);
        if self.kind == Kind::Decimal {
            self.patterns.push(decimals_up_to(self.alloc, units)?)?;
            return Ok(());
        }
        if self.kind == Kind::Integer {
            if let Some(whole) = whole_up_to(units) {
                self.most = self.most.min(whole);
            }
        }
        Ok(())
    }

    /// Asks for numbers of at most so many digits before the point and behind it.
    fn ask_digits(&mut self, integer: u32, fraction: u32) -> Done
        ensures kept { OnOk result (self.new
            ≡ record self.old { least = self.new.least; most = self.new.most; patterns = self.new.patterns }) }
        ensures others { OnOk result (self.old.kind ≢ Kind.Integer → HasBoundsOf self.old self.new) }
        ensures sound { OnOk result (TakesDigits integer self.old self.new) }
        ensures asked { OnOk result ((self.old.least ≤ℤ self.new.least) × (self.new.most ≤ℤ self.old.most)) }
        ensures said { OnOk result (SaysDigits integer self.old self.new) }
    {
        if self.kind == Kind::Decimal {
            self.patterns
                .push(decimals_of_digits(self.alloc, integer, fraction)?)?;
            return Ok(());
        }
        if self.kind == Kind::Integer {
            if let Some(whole) = most_of_digits(integer) {
                self.least = self.least.max(-whole);
                self.most = self.most.min(whole);
            }
        }
        Ok(())
    }

    /// Asks for a size; that of a text is said in whole characters.
    fn ask_size(&mut self, least: u32, most: u32, node: &'a Node) -> Done
        ensures { OnOk result (self.new ≡ record self.old {
          smallest = max self.old.smallest least;
          largest = min self.old.largest most;
          left_out = self.new.left_out;
        }) }
    {
        self.smallest = self.smallest.max(least);
        self.largest = self.largest.min(most);
        if self.kind == Kind::Text {
            return self.leave_out(node.constraint());
        }
        Ok(())
    }

    /// Asks for something that isn't empty.
    fn ask_some(&mut self) -> Done
        ensures { OnOk result (self.new ≡ record self.old { refuses_null = true; smallest = max self.old.smallest 1 }) }
    {
        self.refuses_null = true;
        self.smallest = self.smallest.max(1);
        Ok(())
    }

    fn ask_ink(&mut self, node: &'a Node) -> Done
        ensures { OnOk result (self.new
            ≡ record self.old { refuses_null = true; patterns = self.new.patterns; left_out = self.new.left_out }) }
    {
        self.refuses_null = true;
        self.patterns.push(String::from_str(self.alloc, INK)?)?;
        self.leave_out(node.constraint())
    }

    /// Asks for a match of the attribute `regexp`.
    fn ask_match(&mut self, node: &'a Node) -> Done
        ensures { OnOk result (self.new ≡ record self.old { patterns = self.new.patterns; left_out = self.new.left_out }) }
    {
        let Some(Attribute::Text(regexp)) = node.attributes.find("regexp") else {
            return self.leave_out(node.constraint());
        };
        let Some((pattern, is_wide)) = pattern_of(self.alloc, regexp.as_str())? else {
            return self.leave_out(node.constraint());
        };
        self.patterns.push(pattern)?;
        if is_wide {
            self.leave_out(node.constraint())?;
        }
        Ok(())
    }

    /// Asks for what a built-in constraint does; sizes of texts are said in whole characters.
    fn ask_built_in(&mut self, builtin: &Builtin, node: &'a Node) -> Done
        ensures { OnOk result (Adds self.old self.new (builtin_view builtin.now)) }
    {
        match builtin {
            Builtin::Null => {
                self.refuses_data = true;
                Ok(())
            }
            Builtin::NotNull => {
                self.refuses_null = true;
                Ok(())
            }
            Builtin::AssertTrue => {
                self.takes_false = false;
                Ok(())
            }
            Builtin::AssertFalse => {
                self.takes_true = false;
                Ok(())
            }
            Builtin::Min { units } => self.ask_from(*units, true),
            Builtin::Max { units } => self.ask_up_to(*units, true),
            Builtin::DecimalMin { units, inclusive } => self.ask_from(*units, *inclusive),
            Builtin::DecimalMax { units, inclusive } => self.ask_up_to(*units, *inclusive),
            Builtin::Positive => self.ask_from(0, false),
            Builtin::PositiveOrZero => self.ask_from(0, true),
            Builtin::Negative => self.ask_up_to(0, false),
            Builtin::NegativeOrZero => self.ask_up_to(0, true),
            Builtin::Digits { integer, fraction } => self.ask_digits(*integer, *fraction),
            Builtin::Size { min, max } => self.ask_size(*min, *max, node),
            Builtin::NotEmpty => self.ask_some(),
            Builtin::NotBlank => self.ask_ink(node),
            Builtin::Pattern(_) => self.ask_match(node),
            Builtin::Past | Builtin::PastOrPresent | Builtin::Future | Builtin::FutureOrPresent =>
                self.leave_out(node.constraint()),
        }
    }

    /// Asks for what a constraint does, with all that it is composed of: each of them has to hold.
    pub(crate) fn ask(&mut self, occurrence: &'a Occurrence) -> Done
        ensures { OnOk result (AddsAll self.old self.new occurrence.now) }
    {
        for number in 0..occurrence.size() {
            let Some(node) = occurrence.node(number) else {
                continue;
            };
            match &node.test {
                Test::BuiltIn(builtin) => self.ask_built_in(builtin, node)?,
                Test::Rule(_) => self.leave_out(node.constraint())?,
                Test::ObjectRule(_) => self.leave_out(node.constraint())?,
                Test::Nothing => {}
            }
        }
        Ok(())
    }

    /// What isn't said here, if there is something.
    pub(crate) fn comment(&self) -> Result<Option<String>, AllocError> {
        if self.left_out.is_empty() {
            return Ok(None);
        }
        let mut text = String::from_str(self.alloc, "not wholly said here:")?;
        for name in &self.left_out {
            write!(text, " {name}")?;
        }
        Ok(Some(text))
    }
}
