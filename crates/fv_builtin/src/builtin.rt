ghost use Rattle.std.specs.Prelude.{◌≡◌, true, false, Some, IfOk, IsOk};
ghost use Rattle.std.specs.List.{list_all};
ghost use Rattle.fv_datum.specs.Moments.{IsMoment};
ghost use Rattle.fv_datum.specs.View.{view};
ghost use Rattle.fv_builtin.specs.Given.{drafted, IsRead};
ghost use Rattle.fv_builtin.specs.Names.{builtin_named, is_builtin};
ghost use Rattle.fv_builtin.specs.BuiltIns.{is_pattern};
ghost use Rattle.fv_builtin.specs.Says.{says};
ghost use Rattle.fv_builtin.specs.Table.{takes};
ghost use Rattle.fv_builtin.specs.Views.{builtin_view, answer_view, draft_view};
ghost use Rattle.fv_builtin.specs.declared.name.BuiltinName.{BuiltinName};

use crate::blank::is_not_blank;
use crate::bound::{has_digits, is_above, is_at_least, is_at_most, is_below, is_from, is_up_to};
use crate::compiled::Compiled;
use crate::draft::{Draft, drafted};
use crate::fault::BuiltinFault;
use crate::name::{BuiltinName, builtin_named};
use crate::pattern;
use crate::patterns::Patterns;
use crate::size::{is_not_empty, is_sized};
use crate::table::takes_kind;
use crate::time::{is_future, is_future_or_present, is_past, is_past_or_present};
use crate::truth::{is_false, is_true};
use fv_datum::{Attrs, Datum, Kind, is_null};
use std::alloc::{AllocError, Global};
use std::rc::Rc;

/// A built-in constraint with its attributes in effect. Bounds are in units of 10^-9, sizes of
/// texts in UTF-16 code units.
#[derive(Drop)]
pub enum Builtin {
    Null,
    NotNull,
    AssertTrue,
    AssertFalse,
    Min { units: i128 },
    Max { units: i128 },
    DecimalMin { units: i128, inclusive: bool },
    DecimalMax { units: i128, inclusive: bool },
    Positive,
    PositiveOrZero,
    Negative,
    NegativeOrZero,
    Digits { integer: u32, fraction: u32 },
    Size { min: u32, max: u32 },
    NotEmpty,
    NotBlank,
    Past,
    PastOrPresent,
    Future,
    FutureOrPresent,
    Pattern(Rc<Compiled>),
}

impl Builtin {
    /// The built-in constraint of that name with these attributes, for data of that kind.
    ///
    /// `Attribute`, then `UnexpectedType`, then `BadPattern`. A pattern is built here, once, and
    /// that alone may answer `Memory`.
    pub fn read(
        alloc: Global,
        name: &str,
        attrs: &Attrs,
        kind: Kind,
    ) -> Result<Builtin, BuiltinFault>
        requires { is_builtin name.now ≡ true }
        ensures { (which : BuiltinName) → builtin_named name.now ≡ Some which
            → IsRead (drafted which attrs.now) (takes which kind) (answer_view result) }
    {
        match builtin_named(name) {
            Some(which) => {
                let mut patterns = Patterns::new(alloc);
                Builtin::read_named(alloc, &mut patterns, which, attrs, kind)
            }
            None => Err(BuiltinFault::Attribute),
        }
    }

    /// The same for a name that is read already. A pattern that is among `patterns` is shared, and
    /// one that isn't is built here and added.
    pub fn read_named(
        alloc: Global,
        patterns: &mut Patterns,
        which: BuiltinName,
        attrs: &Attrs,
        kind: Kind,
    ) -> Result<Builtin, BuiltinFault>
        ensures { IsRead (drafted which attrs.now) (takes which kind) (answer_view result) }
    {
        match drafted(which, attrs) {
            None => Err(BuiltinFault::Attribute),
            Some(draft) => {
                if takes_kind(which, kind) {
                    built(alloc, patterns, draft)
                } else {
                    Err(BuiltinFault::UnexpectedType)
                }
            }
        }
    }

    /// Whether the constraint holds for a datum at a moment, in whole seconds since
    /// 1970-01-01T00:00:00Z.
    ///
    /// Only Pattern takes memory.
    #[inline(always)]
    pub fn holds(&self, alloc: Global, datum: &Datum, now: i64) -> Result<bool, AllocError>
        requires { IsMoment now }
        ensures value { IfOk result (λ b. b ≡ says (builtin_view self.now) (view datum.now) now) }
        ensures succeeds { is_pattern (builtin_view self.now) ≡ false → IsOk result }
    {
        match self {
            Builtin::Null => Ok(is_null(datum)),
            Builtin::NotNull => Ok(!is_null(datum)),
            Builtin::AssertTrue => Ok(is_true(datum)),
            Builtin::AssertFalse => Ok(is_false(datum)),
            Builtin::Min { units } => Ok(is_at_least(*units, datum)),
            Builtin::Max { units } => Ok(is_at_most(*units, datum)),
            Builtin::DecimalMin { units, inclusive } => Ok(is_from(*units, *inclusive, datum)),
            Builtin::DecimalMax { units, inclusive } => Ok(is_up_to(*units, *inclusive, datum)),
            Builtin::Positive => Ok(is_above(0, datum)),
            Builtin::PositiveOrZero => Ok(is_at_least(0, datum)),
            Builtin::Negative => Ok(is_below(0, datum)),
            Builtin::NegativeOrZero => Ok(is_at_most(0, datum)),
            Builtin::Digits { integer, fraction } => Ok(has_digits(*integer, *fraction, datum)),
            Builtin::Size { min, max } => Ok(is_sized(*min, *max, datum)),
            Builtin::NotEmpty => Ok(is_not_empty(datum)),
            Builtin::NotBlank => Ok(is_not_blank(datum)),
            Builtin::Past => Ok(is_past(now, datum)),
            Builtin::PastOrPresent => Ok(is_past_or_present(now, datum)),
            Builtin::Future => Ok(is_future(now, datum)),
            Builtin::FutureOrPresent => Ok(is_future_or_present(now, datum)),
            Builtin::Pattern(regex) => pattern::is_match(alloc, regex, datum),
        }
    }

    /// Whether the constraint holds for each of these data at a moment, in whole seconds since
    /// 1970-01-01T00:00:00Z: the same of many, with one call.
    ///
    /// Only Pattern takes memory.
    pub fn holds_for_all(&self, alloc: Global, data: &[Datum], now: i64) -> Result<bool, AllocError>
        requires { IsMoment now }
        ensures value { IfOk result (λ b. b ≡ list_all (λ d. says (builtin_view self.now) (view d) now) data.now) }
        ensures succeeds { is_pattern (builtin_view self.now) ≡ false → IsOk result }
    {
        for datum in data {
            if !self.holds(alloc, datum, now)? {
                return Ok(false);
            }
        }
        Ok(true)
    }
}

/// The constraint of a draft, with its pattern.
fn built(alloc: Global, patterns: &mut Patterns, draft: Draft) -> Result<Builtin, BuiltinFault>
    ensures { IsRead (Some (draft_view draft.entry)) true (answer_view result) }
{
    match draft {
        Draft::Ready(constraint) => Ok(constraint),
        Draft::ToMatch(regexp) => Ok(Builtin::Pattern(patterns.find_or_build(alloc, regexp)?)),
    }
}
