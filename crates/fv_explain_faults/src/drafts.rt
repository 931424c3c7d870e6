//! What stands in a draft that is refused, by numbers, and where: each call that goes there gives it.
use crate::told::{Found, Told, Untold, Written};
use fv_declare_definition::Composing;
use fv_declare_draft::{Draft, FieldDraft, GroupDraft, GroupForm, TypeDraft, Use};
use fv_declare_judging::DeclFault;
use fv_declare_schema::Place;
use fv_extract::Step;
use std::collections::BTreeMap;

/// The item of a number.
pub(crate) fn at<T>(items: &[T], number: usize) -> Told<&T> {
    items.get(number).ok_or(Untold::Absent)
}

/// The entry of a number.
pub(crate) fn entry_at<V>(entries: &BTreeMap<String, V>, number: usize) -> Told<(&str, &V)> {
    let (name, value) = entries.iter().nth(number).ok_or(Untold::Absent)?;
    Ok((name.as_str(), value))
}

/// Goes to the field of a number.
pub(crate) fn to_field<'t, 'a>(
    out: &mut Found,
    types: &'t [TypeDraft<'a>],
    number: usize,
    field: usize,
) -> Told<&'t FieldDraft<'a>> {
    let declared = at(types, number)?;
    let field = at(&declared.fields, field)?;
    out.path(&["types", declared.name, "fields", field.name])?;
    Ok(field)
}

/// Goes on by the members that steps lead through. The keys of a map have no place of their own.
pub(crate) fn to_steps(out: &mut Found, steps: &[Step]) -> Written {
    for step in steps {
        out.place.push_str(match step {
            Step::Element => ".type.list",
            Step::Value => ".type.map",
            Step::Content => ".type.optional",
            Step::Key => ".type.keys",
        })?;
    }
    Ok(())
}

/// Goes to the array that a use stands in.
fn to_array(out: &mut Found, types: &[TypeDraft], given: &Use) -> Written {
    match &given.place {
        Place::Whole => out.path(&["types", at(types, given.type_index)?.name, "constraints"]),
        Place::Field(field, steps, _) => {
            to_field(out, types, given.type_index, *field)?;
            to_steps(out, steps)?;
            match steps.last() {
                Some(Step::Key) => Ok(()),
                _ => out.member("constraints"),
            }
        }
    }
}

/// Goes to the use of a number, among all uses, which are of these types, in order.
pub fn to_use<'u, 'a>(
    out: &mut Found,
    types: &[TypeDraft],
    uses: &'u [Use<'a>],
    number: usize,
) -> Told<&'u Use<'a>> {
    let given = at(uses, number)?;
    let before = uses.iter().take(number);
    let together = before.filter(|other| other.type_index == given.type_index
        && other.place == given.place);
    to_array(out, types, given)?;
    out.item(together.count())?;
    Ok(given)
}

/// A draft that is refused for a fault, with all uses of constraints in it.
#[derive(Drop)]
pub(crate) struct Refused<'a> {
    pub(crate) fault: DeclFault,
    pub(crate) draft: &'a Draft<'a>,
    pub(crate) uses: Vec<Use<'a>>,
}

impl<'a> Refused<'a> {
    /// Goes to the use of a number.
    pub(crate) fn to_use(&self, out: &mut Found, number: usize) -> Told<&Use<'a>> {
        to_use(out, &self.draft.types, &self.uses, number)
    }

    /// Goes to one of the constraints that the declared one of a number is composed of.
    pub(crate) fn to_part(
        &self,
        out: &mut Found,
        number: usize,
        index: usize,
    ) -> Told<&'a Composing> {
        let (owner, definition) = entry_at(&self.draft.definitions, number)?;
        out.path(&["constraints", owner, "compose"])?;
        out.item(index)?;
        at(&definition.composing, index)
    }

    /// The declared group of a number among all groups, of which `Default` is the first.
    pub(crate) fn group_at(&self, number: usize) -> Told<&'a GroupDraft<'a>> {
        let number = number.checked_sub(1).ok_or(Untold::Absent)?;
        at(&self.draft.groups, number)
    }

    /// Goes to the names that the group of a number inherits, or to the members of a sequence.
    pub(crate) fn to_names(&self, out: &mut Found, number: usize) -> Told<&'a [&'a str]> {
        let group = self.group_at(number)?;
        let (kind, names) = match &group.form {
            GroupForm::Inherits(names) => ("inherits", names),
            GroupForm::Sequence(names) => ("sequence", names),
        };
        out.path(&["groups", group.name, kind])?;
        Ok(names)
    }

    /// Goes to the sequence of the type of a number: the name of the type, and the members.
    pub(crate) fn to_members(
        &self,
        out: &mut Found,
        number: usize,
    ) -> Told<(&'a str, &'a [&'a str])> {
        let declared = at(&self.draft.types, number)?;
        let members = declared.sequence.as_ref().ok_or(Untold::Absent)?;
        out.path(&["types", declared.name, "sequence"])?;
        Ok((declared.name, members))
    }
}
