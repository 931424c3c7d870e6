ghost use Rattle.std.specs.Prelude.{◌≡◌};
ghost use Rattle.std.specs.List.{list_any};
ghost use Rattle.fv_registry.specs.SameKind.{same_kind};

use fv_datum::Kind;

/// Whether a kind is listed.
pub(crate) fn lists(kinds: &[Kind], kind: Kind) -> bool
    ensures { result ≡ list_any (λ k. same_kind k kind) kinds.now }
{
    kinds.iter().any(|other| is_same(*other, kind))
}

fn is_same(one: Kind, other: Kind) -> bool
    ensures { result ≡ same_kind one other }
{
    one == other
}
