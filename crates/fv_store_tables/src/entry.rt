//! What the rows of a record keep, as it is written and handed out.
ghost use Rattle.std.specs.Prelude.{◌≡◌, ◌≢◌, ◌<◌, [], None, ℕ, IfErr, IfOk, OnErr, IsUtf8, length, map, option_map, List, Option};
ghost use Rattle.std.specs.List.{AllByRecursion};
ghost use Rattle.sqlite.specs.Order.{column};
ghost use Rattle.sqlite.specs.declared.types.Value.TheVariants.{Text as Words};
ghost use Rattle.fv_store_tables.specs.Causes.{IsRefusal};
ghost use Rattle.fv_store_tables.specs.Changes.{NamedTexts, AllTexts, found_view};
ghost use Rattle.fv_store_tables.specs.Stands.{Entry, Head, NumberedThing, ShowsHead, shown_head, shown_part, shown_row, IsTextOfHead, IsTextObject, IsTextRow};
ghost use Rattle.fv_store_tables.specs.Stored.{head_view, front, front_two, front_four, row_view, things_view};

use sqlite::types::{Type, ValueRef};
use sqlite::{Error, Row};
use std::alloc::Global;

/// What the row of an object keeps beside its record's id: its name, its type's name, and its fields' text.
#[derive(Debug, Drop)]
pub struct ObjectRow<'a> {
    pub name: &'a str,
    pub kind: &'a str,
    pub fields: &'a str,
}

/// The row of an object as it was found, with its rowid.
#[derive(Debug, Drop)]
pub(crate) struct FoundRow<'a> {
    pub(crate) name: &'a [u8],
    pub(crate) kind: &'a [u8],
    pub(crate) fields: &'a [u8],
    pub(crate) rowid: i64,
}

/// What a row of `record` shows.
#[derive(Debug, Drop)]
pub(crate) struct HeadRow<'a> {
    pub(crate) form: &'a str,
    pub(crate) root: &'a str,
}

/// What the rows of a record keep beside its id, its objects ascending by their names.
#[derive(Debug, Drop)]
pub struct RecordRows<'a> {
    pub form: &'a str,
    pub root: &'a str,
    pub objects: Vec<ObjectRow<'a>>,
}

/// The rows that were found of a record: of `record`, and of its objects. There are none where there is no record.
#[derive(Debug, Drop)]
pub struct FoundRecord {
    pub(crate) head: Vec<Row>,
    pub(crate) objects: Vec<Row>,
}

impl FoundRecord {
    ghost use Rattle.fv_store_tables.specs.Stored.{ShowsNone, ShowsRecord, rows_view};

    /// What the rows keep, if there are some. It stays in them.
    /// Refused by `OutOfMemory`, and else only where they don't show a record.
    pub fn read(&self, alloc: Global) -> Result<Option<RecordRows<'_>>, Error>
        ensures shown { IfOk result (λ r. (o : Option Entry) → ShowsRecord self.now o → option_map rows_view r ≡ o) }
        ensures none { IfOk result (λ r. r ≡ None → ShowsNone self.now) }
        ensures cause { IfErr result (λ e. (o : Option Entry) → ShowsRecord self.now o → ¬ IsRefusal e) }
    {
        match head_in(&self.head)? {
            Some(head) => Ok(Some(RecordRows {
                form: head.form,
                root: head.root,
                objects: objects_in(alloc, &self.objects)?,
            })),
            None => Ok(None),
        }
    }
}

/// Reads a column that shows text, which stays in the row.
fn bytes_at(row: &Row, at: usize) -> Result<&[u8], Error>
    ensures shown { IfOk result (λ t. column row.now at ≡ Words t.now) }
    ensures memory { IfErr result IsRefusal }
    ensures cause { OnErr result ((t : List ℕ) → at < length row.now → column row.now at ≢ Words t) }
{
    match row.get_ref(at)? {
        ValueRef::Text(text) => Ok(text),
        other => Err(Error::InvalidColumnType(at, Type::of(other))),
    }
}

/// The same as a `&str`.
fn text_at(row: &Row, at: usize) -> Result<&str, Error>
    ensures shown { IfOk result (λ t. column row.now at ≡ Words t.now) }
    ensures memory { IfErr result IsRefusal }
    ensures cause { OnErr result ((t : List ℕ) → at < length row.now → column row.now at ≡ Words t → ¬ IsUtf8 t) }
{
    match str::from_utf8(bytes_at(row, at)?) {
        Ok(text) => Ok(text),
        Err(_) => Err(Error::Utf8Error(at)),
    }
}

/// Reads the row that shows a record.
fn read_head(row: &Row) -> Result<HeadRow<'_>, Error>
    ensures shown { IfOk result (λ h. front_two row.now ≡ shown_head (head_view h)) }
    ensures memory { IfErr result IsRefusal }
    ensures cause { OnErr result ((h : Head) → row.now ≡ shown_head h → ¬ IsTextOfHead h) }
{
    Ok(HeadRow {
        form: text_at(row, 0)?,
        root: text_at(row, 1)?,
    })
}

/// What the first of these rows shows of a record, if there is one.
pub(crate) fn head_in(rows: &[Row]) -> Result<Option<HeadRow<'_>>, Error>
    ensures shown { IfOk result (λ s. (o : Option Head) → ShowsHead rows.now o → option_map head_view s ≡ o) }
    ensures none { IfOk result (λ s. s ≡ None → rows.now ≡ []) }
    ensures memory { IfErr result IsRefusal }
    ensures cause { OnErr result ((o : Option Head) → ¬ ShowsHead rows.now o) }
{
    match rows.first() {
        Some(row) => Ok(Some(read_head(row)?)),
        None => Ok(None),
    }
}

/// Reads the row that shows an object.
fn read_object(row: &Row) -> Result<ObjectRow<'_>, Error>
    ensures shown { IfOk result (λ o. front row.now ≡ shown_part (row_view o)) }
    ensures memory { IfErr result IsRefusal }
    ensures cause { OnErr result ((o : NamedTexts) → row.now ≡ shown_part o → ¬ IsTextObject o) }
{
    Ok(ObjectRow {
        name: text_at(row, 0)?,
        kind: text_at(row, 1)?,
        fields: text_at(row, 2)?,
    })
}

/// Reads the row that shows an object and its rowid.
fn read_found(row: &Row) -> Result<FoundRow<'_>, Error>
    ensures shown { IfOk result (λ r. front_four row.now ≡ shown_row (found_view r)) }
    ensures cause { IfErr result (λ e. (r : NumberedThing) → row.now ≡ shown_row r → IsTextRow r → ¬ IsRefusal e) }
{
    Ok(FoundRow {
        name: bytes_at(row, 0)?,
        kind: bytes_at(row, 1)?,
        fields: bytes_at(row, 2)?,
        rowid: row.get(3)?,
    })
}

/// The objects that rows show.
pub(crate) fn objects_in(alloc: Global, rows: &[Row]) -> Result<Vec<ObjectRow<'_>>, Error>
    ensures shown { IfOk result (λ v. (os : AllTexts) → rows.now ≡ map shown_part os → things_view v.items ≡ os) }
    ensures cause { IfErr result (λ e. (os : AllTexts) → rows.now ≡ map shown_part os → AllByRecursion IsTextObject os
        → ¬ IsRefusal e) }
{
    let mut objects = Vec::with_capacity(alloc, rows.len())?;
    for row in rows {
        objects.push(read_object(row)?)?;
    }
    Ok(objects)
}

/// The objects that rows show, with their rowids.
pub(crate) fn found_in(alloc: Global, rows: &[Row]) -> Result<Vec<FoundRow<'_>>, Error>
    ensures shown { IfOk result (λ v. (rs : List NumberedThing) → rows.now ≡ map shown_row rs → map found_view v.items ≡ rs) }
    ensures cause { IfErr result (λ e. (rs : List NumberedThing) → rows.now ≡ map shown_row rs → AllByRecursion IsTextRow rs
        → ¬ IsRefusal e) }
{
    let mut found = Vec::with_capacity(alloc, rows.len())?;
    for row in rows {
        found.push(read_found(row)?)?;
    }
    Ok(found)
}
