//! The uses at a type that a group reaches.
ghost use Rattle.std.specs.Prelude.{◌<◌, All, length, option_map, is_some, IfOk};
ghost use Rattle.fv_declare_schema.specs.Tables.{indices};
ghost use Rattle.fv_declare_schema.specs.Ordered.{AreOrdered};
ghost use Rattle.fv_local.specs.Below.{groups_at};
ghost use Rattle.fv_local.specs.Reached.{AreReached, AreOfGroups, AreOfRanks, IsRanked, ranks_of};
ghost use Rattle.fv_local.specs.Spans.{AreOfType};
ghost use Rattle.fv_local.specs.TableView.{lists_view};

use crate::standing::stands_for_any;
use crate::type_uses::TypeUses;
use fv_declare_schema::{GroupId, Schema};
use std::alloc::{AllocError, Global};

/// The uses at a type that a group reaches, by their numbers among all; where the type redefines
/// `Default`, those that are in `Default` alone are left out.
fn reached(
    alloc: Global,
    schema: &Schema,
    uses: TypeUses,
    redefined: bool,
    group: GroupId,
) -> Result<Vec<usize>, AllocError>
    requires uses { AreOfType schema.now.occurrences uses }
    requires group { group.index < length schema.now.groups }
    ensures { IfOk result (λ found. AreReached schema.now uses.type_id.index
        (groups_at schema.now.groups redefined group.index) found.items) }
{
    let occurrences = schema.occurrences();
    let groups = schema.groups();
    let mut found = Vec::new(alloc);
    for number in uses.first..uses.end {
        if stands_for_any(groups, redefined, group, occurrences[number].groups()) {
            found.push(number)?;
        }
    }
    Ok(found)
}

/// What each group reaches at a type, outside of a sequence of the type.
pub(crate) fn of_groups(
    alloc: Global,
    schema: &Schema,
    uses: TypeUses,
) -> Result<Vec<Vec<usize>>, AllocError>
    requires { AreOfType schema.now.occurrences uses }
    ensures { IfOk result (λ row. AreOfGroups schema.now uses.type_id.index (lists_view row.items)) }
{
    let redefined = schema.sequence_of(uses.type_id).is_some();
    let mut row = Vec::new(alloc);
    for index in 0..schema.groups().count() {
        row.push(reached(alloc, schema, uses, redefined, GroupId { index })?)?;
    }
    Ok(row)
}

/// What each of these ranks reaches at a type.
fn of_ranks(
    alloc: Global,
    schema: &Schema,
    uses: TypeUses,
    ranks: &[GroupId],
) -> Result<Vec<Vec<usize>>, AllocError>
    requires uses { AreOfType schema.now.occurrences uses }
    requires ranks { All (λ r. r.index < length schema.now.groups) ranks.now }
    ensures { IfOk result (λ lists. AreOfRanks schema.now uses.type_id.index (indices ranks.now) (lists_view lists.items)) }
{
    let mut lists = Vec::new(alloc);
    for rank in ranks {
        lists.push(reached(alloc, schema, uses, false, *rank)?)?;
    }
    Ok(lists)
}

/// What each rank of a type's sequence reaches at the type, if it has one.
pub(crate) fn of_sequence(
    alloc: Global,
    schema: &Schema,
    uses: TypeUses,
) -> Result<Option<Vec<Vec<usize>>>, AllocError>
    requires ordered { AreOrdered schema.now }
    requires uses { AreOfType schema.now.occurrences uses }
    ensures { IfOk result (λ lists. IsRanked schema.now uses.type_id.index
        (ranks_of schema.now uses.type_id.index) (option_map (λ v. lists_view v.items) lists)) }
{
    match schema.sequence_of(uses.type_id) {
        None => Ok(None),
        Some(ranks) => Ok(Some(of_ranks(alloc, schema, uses, ranks)?)),
    }
}
