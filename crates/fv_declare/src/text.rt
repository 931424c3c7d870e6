ghost use Rattle.std.specs.Prelude.{◌≡◌, ◌≢◌, true, Ok, Err, IfOk, IfErr};
ghost use Rattle.std.specs.Option.{ok_or};
ghost use Rattle.serde_json.specs.View.{view as json_view};
ghost use Rattle.fv_datum.specs.Outcomes.{Gives};
ghost use Rattle.fv_datum.specs.Parsing.{json_of};
ghost use Rattle.fv_declare_judging.specs.Declares.{Declares};
ghost use Rattle.fv_declare_judging.specs.Whereabouts.{IsPlaced};
ghost use Rattle.fv_declare_schema.specs.Fits.{fits};
ghost use Rattle.fv_declare_schema.specs.Ordered.{AreOrdered};

use fv_datum::{JsonFault, read_json};
use fv_declare_judging::{DeclFault, PlacedFault, judge};
use fv_declare_schema::Schema;
use fv_registry::RuleSet;
use serde_json::Value;
use std::alloc::Global;

/// The JSON value that bytes are.
fn value_of(alloc: Global, bytes: &[u8]) -> Result<Value, DeclFault>
    ensures { Gives DeclFault.Memory json_view result (ok_or (json_of bytes.now) DeclFault.NotJson) }
{
    match read_json(alloc, bytes) {
        Ok(value) => Ok(value),
        Err(JsonFault::NotJson) => Err(DeclFault::NotJson),
        Err(JsonFault::Memory) => Err(DeclFault::Memory),
    }
}

/// The schema that a text declares, where these rules are there; else its first fault, as `read_schema`
/// answers it, with its place. `NotJson` and `Shape` have none here, since there are no declarations, and a
/// cycle is told by its ring, apart; a place that stands with `Memory` tells nothing.
pub fn read_placed<R: RuleSet>(
    alloc: Global,
    rules: &R,
    bytes: &[u8],
) -> Result<Schema, PlacedFault>
    ensures taken { IfOk result (λ s. Declares (R.known rules.now) bytes.now (Ok s)) }
    ensures ordered { IfOk result (λ s. AreOrdered s) }
    ensures fits { IfOk result (λ s. fits (R.known rules.now) s ≡ true) }
    ensures refused { IfErr result (λ p. p.fault ≢ DeclFault.Memory → Declares (R.known rules.now) bytes.now (Err p.fault)) }
    ensures placed { IfErr result (λ p. p.fault ≢ DeclFault.Memory → IsPlaced (R.known rules.now) bytes.now p.fault p.at) }
{
    let value = value_of(alloc, bytes)?;
    judge(alloc, rules, &value)
}

/// The schema that a text declares, where these rules are there.
///
/// Refused by the first of `NotJson`, `Shape`, `BadName`, `UnknownName`, `UnknownGroup`,
/// `CyclicInheritance`, `CyclicSequence`, `SequenceMisused`, `SequenceLacksType`,
/// `DefaultInTypeSequence`, `ConversionMisplaced`, `CyclicComposition`, `EmptyConstraint`, `TooLarge`,
/// `UnknownRule`, `Attribute`, `UnexpectedType`, `BadPattern`, `MessageSyntax` and `MessageCycle` whose
/// condition holds; by `Memory` at any place.
pub fn read_schema<R: RuleSet>(alloc: Global, rules: &R, bytes: &[u8]) -> Result<Schema, DeclFault>
    ensures taken { IfOk result (λ s. Declares (R.known rules.now) bytes.now (Ok s)) }
    ensures ordered { IfOk result (λ s. AreOrdered s) }
    ensures fits { IfOk result (λ s. fits (R.known rules.now) s ≡ true) }
    ensures refused { IfErr result (λ f. f ≢ DeclFault.Memory → Declares (R.known rules.now) bytes.now (Err f)) }
{
    match read_placed(alloc, rules, bytes) {
        Ok(schema) => Ok(schema),
        Err(placed) => Err(placed.fault),
    }
}
