//! The constraint that a name is with the attributes that are given, before a pattern is built.
ghost use Rattle.std.specs.Prelude.{◌≡◌, is_some, option_map};
ghost use Rattle.fv_builtin.specs.Given.{accepted, drafted};
ghost use Rattle.fv_builtin.specs.Views.{draft_view};

use crate::bound::{decimal_bound, digit_counts, whole_bound};
use crate::builtin::Builtin;
use crate::given::has_foreign;
use crate::name::BuiltinName;
use crate::pattern::regexp_of;
use crate::size::size_bounds;
use fv_datum::Attrs;

/// A constraint with its attributes in effect, or the text of a pattern that is still to be read.
#[derive(Drop)]
pub(crate) enum Draft<'a> {
    Ready(Builtin),
    ToMatch(&'a str),
}

/// Whether the attributes are ones that the constraint takes.
pub fn takes_attributes(which: BuiltinName, attrs: &Attrs) -> bool
    ensures { result ≡ is_some (drafted which attrs.now) }
{
    drafted(which, attrs).is_some()
}

/// None where an attribute is unknown, missing, of another kind or refused.
pub(crate) fn drafted<'a>(which: BuiltinName, attrs: &'a Attrs) -> Option<Draft<'a>>
    ensures { option_map draft_view result ≡ drafted which attrs.now }
{
    if has_foreign(which, attrs) {
        return None;
    }
    accepted(which, attrs)
}

/// The same, where no attribute is foreign.
fn accepted<'a>(which: BuiltinName, attrs: &'a Attrs) -> Option<Draft<'a>>
    ensures { option_map draft_view result ≡ accepted which attrs.now }
{
    let constraint = match which {
        BuiltinName::Null => Builtin::Null,
        BuiltinName::NotNull => Builtin::NotNull,
        BuiltinName::AssertTrue => Builtin::AssertTrue,
        BuiltinName::AssertFalse => Builtin::AssertFalse,
        BuiltinName::Min => Builtin::Min {
            units: whole_bound(attrs)?,
        },
        BuiltinName::Max => Builtin::Max {
            units: whole_bound(attrs)?,
        },
        BuiltinName::DecimalMin => {
            let (units, inclusive) = decimal_bound(attrs)?;
            Builtin::DecimalMin { units, inclusive }
        }
        BuiltinName::DecimalMax => {
            let (units, inclusive) = decimal_bound(attrs)?;
            Builtin::DecimalMax { units, inclusive }
        }
        BuiltinName::Positive => Builtin::Positive,
        BuiltinName::PositiveOrZero => Builtin::PositiveOrZero,
        BuiltinName::Negative => Builtin::Negative,
        BuiltinName::NegativeOrZero => Builtin::NegativeOrZero,
        BuiltinName::Digits => {
            let (integer, fraction) = digit_counts(attrs)?;
            Builtin::Digits { integer, fraction }
        }
        BuiltinName::Size => {
            let (min, max) = size_bounds(attrs)?;
            Builtin::Size { min, max }
        }
        BuiltinName::NotEmpty => Builtin::NotEmpty,
        BuiltinName::NotBlank => Builtin::NotBlank,
        BuiltinName::Past => Builtin::Past,
        BuiltinName::PastOrPresent => Builtin::PastOrPresent,
        BuiltinName::Future => Builtin::Future,
        BuiltinName::FutureOrPresent => Builtin::FutureOrPresent,
        BuiltinName::Pattern => return Some(Draft::ToMatch(regexp_of(attrs)?)),
    };
    Some(Draft::Ready(constraint))
}
