ghost use Rattle.std.specs.Prelude.{◌≡◌};
ghost use Rattle.fv_builtin.specs.Names.{builtin_named, is_builtin};

/// The built-in constraints.
#[derive(Clone, Copy, Debug, PartialEq, Eq)]
pub enum BuiltinName {
    Null,
    NotNull,
    AssertTrue,
    AssertFalse,
    Min,
    Max,
    DecimalMin,
    DecimalMax,
    Positive,
    PositiveOrZero,
    Negative,
    NegativeOrZero,
    Digits,
    Size,
    NotEmpty,
    NotBlank,
    Past,
    PastOrPresent,
    Future,
    FutureOrPresent,
    Pattern,
}

/// The constraint of a name, if it is built in.
pub fn builtin_named(name: &str) -> Option<BuiltinName>
    ensures { result ≡ builtin_named name.now }
{
    match name {
        "Null" => Some(BuiltinName::Null),
        "NotNull" => Some(BuiltinName::NotNull),
        "AssertTrue" => Some(BuiltinName::AssertTrue),
        "AssertFalse" => Some(BuiltinName::AssertFalse),
        "Min" => Some(BuiltinName::Min),
        "Max" => Some(BuiltinName::Max),
        "DecimalMin" => Some(BuiltinName::DecimalMin),
        "DecimalMax" => Some(BuiltinName::DecimalMax),
        "Positive" => Some(BuiltinName::Positive),
        "PositiveOrZero" => Some(BuiltinName::PositiveOrZero),
        "Negative" => Some(BuiltinName::Negative),
        "NegativeOrZero" => Some(BuiltinName::NegativeOrZero),
        "Digits" => Some(BuiltinName::Digits),
        "Size" => Some(BuiltinName::Size),
        "NotEmpty" => Some(BuiltinName::NotEmpty),
        "NotBlank" => Some(BuiltinName::NotBlank),
        "Past" => Some(BuiltinName::Past),
        "PastOrPresent" => Some(BuiltinName::PastOrPresent),
        "Future" => Some(BuiltinName::Future),
        "FutureOrPresent" => Some(BuiltinName::FutureOrPresent),
        "Pattern" => Some(BuiltinName::Pattern),
        _ => None,
    }
}

/// Whether a name is that of a built-in constraint.
pub fn is_builtin(name: &str) -> bool
    ensures { result ≡ is_builtin name.now }
{
    builtin_named(name).is_some()
}
