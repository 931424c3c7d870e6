//! The table of the uses that each group reaches at each type.
ghost use Rattle.std.specs.Prelude.{◌≡◌, IfOk, option_map, option_and_then, slice_get};
ghost use Rattle.fv_local.specs.Reached.{IsTableOf, entry};
ghost use Rattle.fv_local.specs.TableView.{lists_view};

use crate::reached::{of_groups, of_sequence};
use crate::type_uses::uses_of;
use fv_bundle::TypeId;
use fv_declare_schema::{GroupId, Schema};
use std::alloc::{AllocError, Global};
use std::marker::Model;

/// Uses of constraints by their numbers among all, for each type and group. Contracts see it as a
/// table.
#[derive(Drop)]
pub struct Reach {
    plain: Vec<Vec<Vec<usize>>>,
    ranked: Vec<Option<Vec<Vec<usize>>>>,
}

impl Model for Reach {
    ghost use Rattle.fv_local.specs.Reached.{Table};
    ghost use Rattle.fv_local.specs.TableView.{rows_view, ranked_view};

    ghost Value = { Table };

    ghost view = { λ r. record { plain = rows_view r.plain.items; ranked = ranked_view r.ranked.items } };
}

impl Reach {
    /// The table of these declarations.
    pub fn new(alloc: Global, schema: &Schema) -> Result<Reach, AllocError>
        ensures { IfOk result (λ r. IsTableOf schema.now r) }
    {
        let mut plain = Vec::new(alloc);
        let mut ranked = Vec::new(alloc);
        for index in 0..schema.types().count() {
            let uses = uses_of(schema, TypeId { index });
            plain.push(of_groups(alloc, schema, uses)?)?;
            ranked.push(of_sequence(alloc, schema, uses)?)?;
        }
        Ok(Reach { plain, ranked })
    }

    /// The uses at a type that a group reaches, by their numbers among all; where the type has a
    /// sequence in place of `Default`, those that are in `Default` alone are left out. Empty where no
    /// type or group has the number.
    pub fn uses(&self, type_id: TypeId, group: GroupId) -> &[usize]
        ensures { result.now ≡ entry self.now.plain type_id.index group.index }
    {
        let Some(row) = self.plain.get(type_id.index) else {
            return &[];
        };
        match row.get(group.index) {
            Some(uses) => uses,
            None => &[],
        }
    }

    /// Those that each rank of the sequence reaches that a type has in place of `Default`, if it has
    /// one.
    pub fn ranks(&self, type_id: TypeId) -> Option<&[Vec<usize>]>
        ensures { option_map (λ lists. lists_view lists.now) result
            ≡ option_and_then (λ lists. lists) (slice_get self.now.ranked type_id.index) }
    {
        match self.ranked.get(type_id.index) {
            Some(Some(lists)) => Some(lists),
            _ => None,
        }
    }
}
