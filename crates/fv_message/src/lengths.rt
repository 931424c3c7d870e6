//! How long the texts of keys become.
ghost use Rattle.std.specs.Prelude.{◌<◌, ℕ, length, slice_index, IfOk, MatchOption};
ghost use Rattle.fv_graph.specs.Graph.{next_of, IsIn, IsRestOrder};
ghost use Rattle.fv_message.specs.Judged.{HasLongKey};
ghost use Rattle.fv_message.specs.Measured.{AreEdgesOf};
ghost use Rattle.fv_message.specs.Whereabouts.{IsLongAt};

use crate::expanding::at;
use crate::table::Table;
use fv_graph::weigh;
use std::alloc::{AllocError, Global};

/// The most bytes that a key's text becomes, with no attributes.
const MOST_FULL: usize = 65_536;

/// The first of these places at which a number is above a limit.
fn first_above(numbers: &[usize], places: &[usize], limit: usize) -> Option<usize>
    requires { (i : ℕ) → IsIn places.now i → i < length numbers.now }
    ensures { MatchOption result ((i : ℕ) → IsIn places.now i → limit < slice_index numbers.now i → ⊥)
        (λ i. IsIn places.now i × (limit < slice_index numbers.now i)) }
{
    for place in places {
        if *at(numbers, *place) > limit {
            return Some(*place);
        }
    }
    None
}

/// A key whose text becomes too long, by its number, from an order of the keys that meet no cycle and no text
/// that is no template. The texts aren't made.
pub(crate) fn long_key(
    alloc: Global,
    messages: &Table,
    edges: &[Vec<usize>],
    order: &[usize],
) -> Result<Option<usize>, AllocError>
    requires edges { AreEdgesOf messages.now edges.now }
    requires order { IsRestOrder (next_of edges.now) (length edges.now) order.now }
    ensures { IfOk result (λ found. MatchOption found (HasLongKey messages.now → ⊥) (IsLongAt messages.now)) }
{
    let mut own = Vec::new(alloc);
    for key in 0..messages.count() {
        own.push(messages.own_len(key))?;
    }
    let lens = weigh(alloc, edges, &own, MOST_FULL + 1, order)?;
    Ok(first_above(&lens, order, MOST_FULL))
}
