//! Groups: what they inherit, and what sequences stand for.
use crate::given::{Rows, check_rows};
use fv_declare_schema::{GroupDraft, GroupId, Groups};
use indexmap::IndexMap;
use std::alloc::Global;
use std::test::Fail;

/// Groups with `;` between them, `A: B C` one that inherits others and `S = A B` a sequence of others, and a
/// name behind `/`: the groups that the one of that name inherits, itself among them, and behind `|` the plain
/// groups that it stands for; or the fault.
const GROUPS: &str = r#"
A: B C; B: D; C: D; D: / A => A B C D | A
A: B; B: Default / A => Default A B | A
S = T A U; T = B A; U = A C B; A: ; B: ; C: D; D: / S => S | B A C
S = Default A; A: / S => S | Default A
A: B / A => UnknownGroup
A: B; B: A / A => CyclicInheritance
S = T; T = S / S => CyclicSequence
A: S; S = B; B: / A => SequenceMisused
"#;

/// Names with blanks between them.
fn names_of(alloc: Global, text: &str) -> Result<Vec<String>, Fail> {
    let mut names = Vec::new(alloc);
    for name in text.split_whitespace() {
        names.push(String::from_str(alloc, name)?)?;
    }
    Ok(names)
}

/// The groups that a text declares.
fn declared(alloc: Global, text: &str) -> Result<IndexMap<String, GroupDraft>, Fail> {
    let mut groups = IndexMap::new(alloc);
    for group in text.split("; ") {
        let (name, draft) = match group.split_once(" = ") {
            Some((name, members)) => (name, GroupDraft::Sequence(names_of(alloc, members)?)),
            None => {
                let (name, inherited) = group.split_once(":").ok_or("a group")?;
                (name, GroupDraft::Inherits(names_of(alloc, inherited)?))
            }
        };
        groups.insert(String::from_str(alloc, name)?, draft)?;
    }
    Ok(groups)
}

/// What a group inherits and stands for.
fn shown(alloc: Global, groups: &Groups, name: &str) -> Result<String, Fail> {
    let group = groups.find(name).ok_or("a group")?;
    let mut text = String::new(alloc);
    for index in 0..groups.count() {
        let other = GroupId { index };
        if groups.inherits(group, other) {
            text.push_str(groups.name(other))?;
            text.push(' ')?;
        }
    }
    text.push('|')?;
    for rank in groups.ranks(group) {
        text.push(' ')?;
        text.push_str(groups.name(*rank))?;
    }
    Ok(text)
}

struct Of;

impl Rows for Of {
    fn found(alloc: Global, given: &str) -> Result<String, Fail> {
        let (text, name) = given.split_once(" / ").ok_or("a name")?;
        match Groups::build(alloc, declared(alloc, text)?) {
            Ok(groups) => shown(alloc, &groups, name),
            Err(fault) => Ok(String::from_str(alloc, fault.name())?),
        }
    }
}

#[test]
fn groups_inherit_and_stand_for_others(rt: HostRuntime) -> Result<(), Fail> {
    check_rows::<Of>(&rt, rt.alloc(), GROUPS)
}
