//! The constraints by which the objects of a type are judged where groups are asked.
use fv_bundle::TypeId;
use fv_declare_schema::{GroupId, Groups, Placed, Schema};
use std::alloc::{AllocError, Global};

/// Whether a plain group is another one or inherits it.
fn inherits(groups: &Groups, group: GroupId, other: GroupId) -> bool {
    let is_within = group.index < groups.count() && other.index < groups.count();
    is_within && groups.inherits(group, other)
}

/// The plain groups that one stands for.
fn ranks(groups: &Groups, group: GroupId) -> &[GroupId] {
    if group.index < groups.count() {
        groups.ranks(group)
    } else {
        &[]
    }
}

/// Whether a constraint is in a plain group, or in one that it inherits.
fn is_of(groups: &Groups, placed: &Placed, group: GroupId) -> bool {
    placed
        .groups()
        .iter()
        .any(|other| inherits(groups, group, *other))
}

/// Whether a constraint is judged where a plain group is asked: for that group itself, or where it is or inherits
/// `Default`, in the sequence by which the type redefines that.
fn is_in(schema: &Schema, placed: &Placed, group: GroupId) -> bool {
    let groups = schema.groups();
    let is_default = groups
        .find("Default")
        .is_some_and(|other| inherits(groups, group, other));
    let redefined = schema.sequence_of(placed.type_id()).unwrap_or(&[]);
    is_of(groups, placed, group)
        || is_default && redefined.iter().any(|rank| is_of(groups, placed, *rank))
}

/// The uses of constraints, by their places among all, by which each object of a type is judged where these groups are
/// asked and no place converts them. Of a sequence it is those of all ranks: one that isn't judged, since one before it
/// refuses, is refused all the same.
pub(crate) fn in_effect(
    alloc: Global,
    schema: &Schema,
    type_id: TypeId,
    asked: &[GroupId],
) -> Result<Vec<usize>, AllocError> {
    let mut found = Vec::new(alloc);
    for (number, placed) in schema.occurrences().iter().enumerate() {
        let is_here = placed.type_id().index == type_id.index;
        let groups = schema.groups();
        let judges = |group: &GroupId| {
            ranks(groups, *group)
                .iter()
                .any(|rank| is_in(schema, placed, *rank))
        };
        if is_here && asked.iter().any(judges) {
            found.push(number)?;
        }
    }
    Ok(found)
}
