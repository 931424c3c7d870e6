ghost use Rattle.std.specs.Prelude.{ℕ, Bool};
ghost use Rattle.fv_datum.specs.Data.{Data};
ghost use Rattle.fv_datum.specs.Attributes.{Attributes};
ghost use Rattle.fv_bundle.specs.Bundles.{Thing};
ghost use Rattle.fv_registry.specs.NamedFields.{NeedsAll};

use fv_datum::Kind;

/// What the rules mean, by their numbers. A type that stands for a program's rules implements it, and the
/// program's validators are proved to answer it.
pub trait Meaning {
    /// Whether a rule holds of a datum, with the attributes in effect.
    ghost decides: { ℕ → Data → Attributes → Bool };

    /// Whether a rule holds of an object, with the attributes in effect.
    ghost decides_object: { ℕ → Thing → Attributes → Bool };

    /// The attributes of a rule of objects that name fields, each with the kind that the field has to have for
    /// the rule to refuse anything. None, unless the type tells some. Warnings of declarations ask it; no judgement does.
    fn named_fields(rule: u32) -> &'static [(&'static str, Kind)]
        ensures { NeedsAll (decides_object rule) result.now }
    {
        &[]
    }
}
