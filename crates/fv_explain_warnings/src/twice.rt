//! Members that stand twice in a JSON text. A value has the last of each name alone, so the text is read once
//! more, as a type of its own that sees each member.
use fv_explain_faults::{Found, Named, Told, Untold, say};
use serde::{Deserialize, Deserializer, Format, Kind};
use std::alloc::Global;
use std::collections::BTreeMap;

/// The most members that are told.
const MOST_TOLD: usize = 100;

/// How deep arrays and objects may nest, as where JSON is read.
const MOST_DEPTH: usize = 127;

/// Warnings of the members that stand twice.
#[derive(Drop)]
struct Twice(Vec<Found>);

impl Twice {
    /// Counts a member of the object at a place, of which these names stood before, each so often, and tells one that
    /// stands there for the second time. Gives the place of the member.
    fn count(
        &mut self,
        alloc: Global,
        names: &mut BTreeMap<String, usize>,
        name: String,
        place: &str,
    ) -> Told<String> {
        let mut found = Found::new(alloc);
        found.place.push_str(place)?;
        found.member(name.as_str())?;
        let inside = found.place.clone()?;
        let count = names.get(&name).copied().unwrap_or(0).saturating_add(1);
        if count == 2 && self.0.len() < MOST_TOLD {
            let told = Named(name.as_str());
            say!(found; "member {told} stands twice: the last one counts")?;
            self.0.push(found)?;
        }
        drop(names.insert(name, count)?);
        Ok(inside)
    }
}

impl<'de> Deserialize<'de> for Twice {
    fn deserialize<F: Format>(
        alloc: Global,
        from: &mut Deserializer<'de, '_, F>,
    ) -> Result<Twice, F::Error> {
        let mut twice = Twice(Vec::new(alloc));
        look(alloc, from, &mut twice, "", MOST_DEPTH)?;
        Ok(twice)
    }
}

/// Looks at the value at a place.
#[cycle(look)]
fn look<F: Format>(
    alloc: Global,
    from: &mut Deserializer<'_, '_, F>,
    twice: &mut Twice,
    place: &str,
    depth: usize,
) -> Result<(), F::Error> {
    match from.peek()? {
        Kind::Seq if depth > 0 => look_at_items(alloc, from, twice, place, depth - 1),
        Kind::Map if depth > 0 => look_at_members(alloc, from, twice, place, depth - 1),
        _ => from.skip(),
    }
}

/// Looks at an array's items.
#[cycle(look)]
fn look_at_items<F: Format>(
    alloc: Global,
    from: &mut Deserializer<'_, '_, F>,
    twice: &mut Twice,
    place: &str,
    depth: usize,
) -> Result<(), F::Error> {
    from.begin_seq()?;
    for index in 0..usize::MAX {
        if !from.next_item()? {
            break;
        }
        let Ok(inside) = format!(in alloc; "{place}[{index}]") else {
            return Err(from.no_memory());
        };
        look(alloc, from, twice, inside.as_str(), depth)?;
    }
    Ok(())
}

/// Looks at an object's members.
#[cycle(look)]
fn look_at_members<F: Format>(
    alloc: Global,
    from: &mut Deserializer<'_, '_, F>,
    twice: &mut Twice,
    place: &str,
    depth: usize,
) -> Result<(), F::Error> {
    from.begin_map()?;
    let mut names = BTreeMap::new(alloc);
    for _ in 0..u64::MAX {
        if !from.next_entry()? {
            break;
        }
        let name = from.string(alloc)?;
        let Ok(inside) = twice.count(alloc, &mut names, name, place) else {
            return Err(from.no_memory());
        };
        look(alloc, from, twice, inside.as_str(), depth)?;
    }
    Ok(())
}

/// A warning for each member that stands twice in a JSON text, the first hundred of them.
pub(crate) fn members_twice(alloc: Global, bytes: &[u8]) -> Told<Vec<Found>> {
    let read: Result<Twice, serde_json::Error> = serde_json::from_slice(alloc, bytes);
    match read {
        Ok(Twice(told)) => Ok(told),
        Err(error) if error.is_memory() => Err(Untold::Memory),
        Err(_) => Ok(Vec::new(alloc)),
    }
}
