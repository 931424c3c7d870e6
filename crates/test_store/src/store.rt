//! What a store answers to a line.
use anyhow::{Context, Result, bail};
use fv_bundle::{Bundle, Types};
use fv_datum::read_text;
use fv_model::{read_bundle, write_bundle};
use fv_store::{Change, OpenStoreFault, Store, StoreFault, Stored};
use sqlite::Alter;
use std::alloc::Global;
use std::str;

/// The change of one object: the one of that name of a bundle.
fn object_of(alloc: Global, id: &str, name: &str, bundle: &Bundle) -> Result<Change> {
    Ok(Change::Object {
        id: String::from_str(alloc, id)?,
        name: String::from_str(alloc, name)?,
        object: bundle.object(name).context("no object")?.copy(alloc)?,
    })
}

/// The change of a record: its put, by its id, its form, and its bundle as JSON; that of one object, by
/// the id, a point with the object's name, and a bundle that has it; or its removal, by its id alone.
fn change_of(alloc: Global, types: &Types, record: &str) -> Result<Change> {
    let Some((id, rest)) = record.split_once(' ') else {
        return Ok(Change::Remove {
            id: String::from_str(alloc, record)?,
        });
    };
    let (form, bundle) = rest.split_once(' ').context("no form")?;
    let Ok(document) = read_text(alloc, bundle) else {
        bail!("no JSON: {bundle}");
    };
    let bundle = read_bundle(alloc, types, None, &document)?;
    if let Some(name) = form.strip_prefix(".") {
        return object_of(alloc, id, name, &bundle);
    }
    Ok(Change::Put {
        id: String::from_str(alloc, id)?,
        stored: Stored {
            form: String::from_str(alloc, form)?,
            bundle,
        },
    })
}

/// Commits changes, one behind each "; ".
fn commit<S: Alter>(
    alloc: Global,
    store: &mut Store<S>,
    types: &Types,
    records: &str,
) -> Result<()> {
    let mut changes = Vec::new(alloc);
    for record in records.split("; ").skip(1) {
        changes.push(change_of(alloc, types, record)?)?;
    }
    store.commit(alloc, &changes)?;
    Ok(())
}

/// Tells a form and a text.
fn tell_record(told: &mut String, form: &str, text: &str) -> Result<()> {
    write!(told, "= {form} {text}\n")?;
    Ok(())
}

/// Tells what a store finds of an id: the form and the bundle, `none`, or the fault's name.
fn get<S: Alter>(
    told: &mut String,
    alloc: Global,
    store: &mut Store<S>,
    types: &Types,
    id: &str,
) -> Result<()> {
    match store.get(alloc, types, id) {
        Ok(Some(stored)) => {
            let text = write_bundle(alloc, &stored.bundle)?.to_string(alloc)?;
            tell_record(told, stored.form.as_str(), text.as_str())?;
        }
        Ok(None) => told.push_str("= none\n")?,
        Err(fault) => {
            let name = fault.name();
            write!(told, "= {name}\n")?;
        }
    }
    Ok(())
}

/// Tells what is written of the record of an id, whatever its types: the form and the text, `none`, or the
/// fault's name.
fn written<S: Alter>(
    told: &mut String,
    alloc: Global,
    store: &mut Store<S>,
    id: &str,
) -> Result<()> {
    match store.written(alloc, id) {
        Ok(Some(found)) => tell_record(told, found.form.as_str(), found.bundle.as_str())?,
        Ok(None) => told.push_str("= none\n")?,
        Err(fault) => {
            let name = fault.name();
            write!(told, "= {name}\n")?;
        }
    }
    Ok(())
}

/// Tells ids, `none`, or the fault's name.
fn tell_ids(told: &mut String, ids: Result<Vec<String>, StoreFault>) -> Result<()> {
    told.push('=')?;
    match ids {
        Ok(ids) => {
            for id in &ids {
                write!(told, " {id}")?;
            }
            if ids.is_empty() {
                told.push_str(" none")?;
            }
        }
        Err(fault) => {
            let name = fault.name();
            write!(told, " {name}")?;
        }
    }
    told.push('\n')?;
    Ok(())
}

/// A number and behind it, if there is one, an id to begin after.
fn limit_and_after(asked: &str) -> Result<(u32, Option<&str>)> {
    let (limit, after) = match asked.split_once(' ') {
        Some((limit, after)) => (limit, Some(after)),
        None => (asked, None),
    };
    Ok((limit.parse()?, after))
}

/// Tells the ids of a form.
fn list<S: Alter>(
    told: &mut String,
    alloc: Global,
    store: &mut Store<S>,
    asked: &str,
) -> Result<()> {
    let (form, asked) = asked.split_once(' ').context("no limit")?;
    let (limit, after) = limit_and_after(asked)?;
    tell_ids(told, store.list(alloc, form, after, limit))
}

/// Tells the ids of all forms.
fn ids<S: Alter>(
    told: &mut String,
    alloc: Global,
    store: &mut Store<S>,
    asked: &str,
) -> Result<()> {
    let (limit, after) = limit_and_after(asked)?;
    tell_ids(told, store.ids(alloc, after, limit))
}

/// Tells the declarations in force.
fn tell_declarations<S: Alter>(told: &mut String, store: &Store<S>) -> Result<()> {
    let text = str::from_utf8(store.declarations())?;
    write!(told, "= [{text}]\n")?;
    Ok(())
}

/// Tells what a store answers to a line: `get ID`, `written ID`, `list FORM LIMIT`, `ids LIMIT`, each of
/// both also with an id to begin after, `declarations`, `redeclare [DECLARATIONS]`, or `commit; CHANGE; ..`.
pub(crate) fn ask_store<S: Alter>(
    told: &mut String,
    alloc: Global,
    store: &mut Store<S>,
    types: &Types,
    line: &str,
) -> Result<()> {
    if let Some(id) = line.strip_prefix("get") {
        get(told, alloc, store, types, id.trim_start())
    } else if let Some(id) = line.strip_prefix("written") {
        written(told, alloc, store, id.trim_start())
    } else if let Some(asked) = line.strip_prefix("list ") {
        list(told, alloc, store, asked)
    } else if let Some(asked) = line.strip_prefix("ids ") {
        ids(told, alloc, store, asked)
    } else if let Some(given) = line.strip_prefix("redeclare [") {
        let text = given.strip_suffix("]").context("no declarations")?;
        store.redeclare(alloc, text.as_bytes())?;
        Ok(())
    } else if let Some(records) = line.strip_prefix("commit") {
        commit(alloc, store, types, records)
    } else {
        tell_declarations(told, store)
    }
}

/// Tells the texts of the faults of calls and of openings.
pub(crate) fn tell_faults(told: &mut String) -> Result<()> {
    for fault in [StoreFault::Store, StoreFault::Memory] {
        write!(told, "= {fault}\n")?;
    }
    for fault in [
        OpenStoreFault::OtherVersion,
        OpenStoreFault::Store,
        OpenStoreFault::Memory,
    ] {
        write!(told, "= {fault}\n")?;
    }
    Ok(())
}
