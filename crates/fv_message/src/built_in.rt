//! The messages of the built-in constraints: what stands under their keys where the user gives them
//! no text. (The texts of DecimalMin, DecimalMax and Pattern are this project's own.)
ghost use Rattle.std.specs.Prelude.{◌≡◌, map, IfOk, string_bytes};
ghost use Rattle.fv_message.specs.BuiltIn.{built_in_key, built_in_texts};
ghost use Rattle.fv_message.specs.Views.{row_view};

use std::alloc::{AllocError, Global};

static ROWS: [(&'static str, &'static str); 21] = [
    ("Null", "must be null"),
    ("NotNull", "must not be null"),
    ("AssertTrue", "must be true"),
    ("AssertFalse", "must be false"),
    ("Min", "must be greater than or equal to {value}"),
    ("Max", "must be less than or equal to {value}"),
    (
        "DecimalMin",
        "must not be below {value} (inclusive: {inclusive})",
    ),
    (
        "DecimalMax",
        "must not be above {value} (inclusive: {inclusive})",
    ),
    ("Positive", "must be greater than 0"),
    ("PositiveOrZero", "must be greater than or equal to 0"),
    ("Negative", "must be less than 0"),
    ("NegativeOrZero", "must be less than or equal to 0"),
    (
        "Digits",
        "numeric value out of bounds (<{integer} digits>.<{fraction} digits> expected)",
    ),
    ("Size", "size must be between {min} and {max}"),
    ("NotEmpty", "must not be empty"),
    ("NotBlank", "must not be blank"),
    ("Past", "must be a past date"),
    (
        "PastOrPresent",
        "must be a date in the past or in the present",
    ),
    ("Future", "must be a future date"),
    (
        "FutureOrPresent",
        "must be a date in the present or in the future",
    ),
    ("Pattern", "must match \"{regexp}\""),
];

/// The built-in constraints, by their names, with the texts of their messages.
pub(crate) fn built_in_texts() -> &'static [(&'static str, &'static str)]
    ensures { map row_view result.now ≡ built_in_texts }
{
    &ROWS
}

/// The key of a built-in constraint's message.
pub(crate) fn built_in_key(alloc: Global, name: &str) -> Result<String, AllocError>
    ensures { IfOk result (λ key. string_bytes key ≡ built_in_key name.now) }
{
    format!(in alloc; "jakarta.validation.constraints.{name}.message")
}
