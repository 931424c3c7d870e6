//! Whether a composed constraint passes many data, asked a constraint at a time.
ghost use Rattle.std.specs.Prelude.{◌≡◌, All, IfOk, true, false};
ghost use Rattle.std.specs.List.{list_all};
ghost use Rattle.fv_datum.specs.Moments.{IsMoment};
ghost use Rattle.fv_datum.specs.View.{view};
ghost use Rattle.fv_registry.specs.Meanings.{Meanings};
ghost use Rattle.fv_constraint_tree.specs.Reports.{is_bad};
ghost use Rattle.fv_constraint_tree.specs.Says.{of_datum, test_says, refuses};
ghost use Rattle.fv_constraint_tree.specs.Views.{test_view};

use crate::node::{Node, Test};
use crate::occurrence::Occurrence;
use fv_datum::Datum;
use std::alloc::{AllocError, Global};

/// Whether a constraint's own test is known to hold of each of these data at a moment. A rule isn't
/// asked.
fn holds_for_all(alloc: Global, node: &Node, data: &[Datum], now: i64) -> Result<bool, AllocError>
    requires { IsMoment now }
    ensures { (m : Meanings) → IfOk result (λ b. b ≡ true
        → list_all (λ d. test_says m now node.now.attributes (test_view node.now.test) (of_datum (view d))) data.now ≡ true) }
{
    match &node.test {
        Test::BuiltIn(builtin) => builtin.holds_for_all(alloc, data, now),
        Test::Rule(_) => Ok(false),
        Test::ObjectRule(_) => Ok(true),
        Test::Nothing => Ok(true),
    }
}

/// The same of each of these constraints.
fn all_hold(alloc: Global, nodes: &[Node], data: &[Datum], now: i64) -> Result<bool, AllocError>
    requires { IsMoment now }
    ensures { (m : Meanings) → IfOk result (λ b. b ≡ true
        → list_all (λ n. list_all (λ d. test_says m now n.attributes (test_view n.test) (of_datum (view d))) data.now) nodes.now ≡ true) }
{
    for node in nodes {
        if !holds_for_all(alloc, node, data, now)? {
            return Ok(false);
        }
    }
    Ok(true)
}

/// Whether a composed constraint is known to report nothing of any of these data at a moment in whole
/// seconds since 1970-01-01T00:00:00Z, whatever the rules say.
///
/// That is known where none of its constraints is a rule of data, and all hold of each datum. No rule
/// is asked here, so that `report` behind it asks each at most once.
pub fn passes_all(
    alloc: Global,
    occurrence: &Occurrence,
    data: &[Datum],
    now: i64,
) -> Result<bool, AllocError>
    requires { IsMoment now }
    ensures { (m : Meanings) → IfOk result (λ b. b ≡ true
        → All (λ d. is_bad (refuses m now (of_datum (view d))) occurrence.now ≡ false) data.now) }
{
    let (root, below) = occurrence.split_at(0);
    Ok(holds_for_all(alloc, root, data, now)? && all_hold(alloc, below, data, now)?)
}
