//! A disk that fails from one of its calls on, under an opening that migrates a database of version 1: what
//! stands on the disk is of version 1 or of version 2, whole, with the same records.
use crate::engines::Database;
use crate::files::{Disks, Side, closed, empty};
use crate::stops::{End, MOST, Stopped, check_left, mended, run_stopped};
use sqlite::Row;
use sqlite_disk::Crash;
use std::alloc::Global;
use std::process::Abort;
use std::test::Fail;
use test_commands::{Command, Script, Shown};

/// The declarations of the database.
const DECLARATIONS: &str =
    r#"{"types":{"Item":{"fields":{"name":{"type":"text"}}}},"forms":{"item":{"root":"Item"}}}"#;

/// The tables of version 1 with three records.
const FIRST: &str = r#"
CREATE TABLE about (one INTEGER PRIMARY KEY CHECK (one = 1), version INTEGER NOT NULL, declarations BLOB NOT NULL);
CREATE TABLE record (id TEXT NOT NULL PRIMARY KEY, form TEXT NOT NULL, bundle TEXT NOT NULL);
INSERT INTO about VALUES (1, 1, x'7b227479706573223a7b224974656d223a7b226669656c6473223a7b226e616d65223a7b2274797065223a2274657874227d7d7d7d2c22666f726d73223a7b226974656d223a7b22726f6f74223a224974656d227d7d7d');
INSERT INTO record VALUES ('r1', 'item', '{"objects":{"a":{"fields":{"name":"one"},"type":"Item"},"b":{"fields":{},"type":"Item"}},"root":"a"}');
INSERT INTO record VALUES ('r2', 'item', '{"objects":{"a":{"fields":{"name":"two"},"type":"Item"}},"root":"a"}');
INSERT INTO record VALUES ('r3', 'item', '{"objects":{"a":{"fields":{},"type":"Item"},"b":{"fields":{},"type":"Item"}},"root":"b"}');
"#;

/// The records and their ids, whatever was answered before.
const RECORDS: Shown = &[
    r#"{"bundle":{"objects":{"a":{"fields":{"name":"one"},"type":"Item"},"b":{"fields":{},"type":"Item"}},"root":"a"},"form":"item","id":"r1","ok":"get"}"#,
    r#"{"bundle":{"objects":{"a":{"fields":{"name":"two"},"type":"Item"}},"root":"a"},"form":"item","id":"r2","ok":"get"}"#,
    r#"{"bundle":{"objects":{"a":{"fields":{},"type":"Item"},"b":{"fields":{},"type":"Item"}},"root":"b"},"form":"item","id":"r3","ok":"get"}"#,
    r#"{"ids":["r1","r2","r3"],"ok":"list"}"#,
    r#"{"error":"C8","name":"NoSuchField"}"#,
];

/// An opening with a command behind it that finds a record.
const GET: Script = Script {
    declarations: DECLARATIONS,
    before: RECORDS,
    commands: &[Command {
        line: r#"{"do":"get","id":"r2"}"#,
        reply: r#"{"bundle":{"objects":{"a":{"fields":{"name":"two"},"type":"Item"}},"root":"a"},"form":"item","id":"r2","ok":"get"}"#,
        after: RECORDS,
    }],
};

/// The version of the tables, and the declarations.
const ABOUT: &str = "SELECT version || ' ' || CAST(declarations AS TEXT) FROM about";

const TABLES: &str = "SELECT name FROM sqlite_schema WHERE type = 'table' ORDER BY name";

/// What a database of a version holds: its tables, and what a query shows of the records.
#[derive(Clone, Copy)]
struct Held {
    tables: &'static str,
    query: &'static str,
    records: &'static str,
}

const FIRST_HELD: Held = Held {
    tables: "about\nrecord\n",
    query: "SELECT id || ' ' || form || ' ' || bundle FROM record ORDER BY id",
    records: r#"r1 item {"objects":{"a":{"fields":{"name":"one"},"type":"Item"},"b":{"fields":{},"type":"Item"}},"root":"a"}
r2 item {"objects":{"a":{"fields":{"name":"two"},"type":"Item"}},"root":"a"}
r3 item {"objects":{"a":{"fields":{},"type":"Item"},"b":{"fields":{},"type":"Item"}},"root":"b"}
"#,
};

const SECOND_HELD: Held = Held {
    tables: "about\nobject\nrecord\n",
    query: "SELECT id || ' ' || form || ' ' || root || ' ' || name || ' ' || kind || ' ' || fields FROM record JOIN object ON rec = id ORDER BY id, name",
    records: r#"r1 item a a Item {"name":"one"}
r1 item a b Item {}
r2 item a a Item {"name":"two"}
r3 item b a Item {}
r3 item b b Item {}
"#,
};

/// Adds the text that a row shows.
fn add_row(text: &mut String, row: &Row) -> Result<(), Fail> {
    let shown: String = row.get(0)?;
    write!(text, "{shown}\n")?;
    Ok(())
}

/// The texts that a query shows, each with an end of line.
fn shown(alloc: Global, connection: &mut Database, query: &str) -> Result<String, Fail> {
    let rows = connection.query_all(query, &[])?;
    let mut text = String::new(alloc);
    for row in &rows {
        add_row(&mut text, row)?;
    }
    Ok(text)
}

/// A query shows these texts.
fn check_shown(
    rt: &impl Abort,
    alloc: Global,
    connection: &mut Database,
    (query, wanted): (&str, &str),
) -> Result<(), Fail> {
    let text = shown(alloc, connection, query)?;
    assert_eq!(rt; text.as_str(), wanted);
    Ok(())
}

/// A database is of version 1 or of version 2, with the declarations and all records. Tells whether it is of
/// version 2.
fn check_whole(rt: &impl Abort, alloc: Global, connection: &mut Database) -> Result<bool, Fail> {
    let about = shown(alloc, connection, ABOUT)?;
    let (version, declarations) = about.split_once(' ').ok_or("a version")?;
    assert_eq!(rt; declarations.trim_end(), DECLARATIONS);
    let is_migrated = version == "2";
    assert!(rt; is_migrated || version == "1");
    let held = if is_migrated { SECOND_HELD } else { FIRST_HELD };
    check_shown(rt, alloc, connection, (TABLES, held.tables))?;
    check_shown(rt, alloc, connection, (held.query, held.records))?;
    Ok(is_migrated)
}

/// A log and a database file of version 1.
fn of_version_1(alloc: Global) -> Result<Disks, Fail> {
    let mut connection = mended(alloc, &empty(alloc))?;
    connection.execute_batch(FIRST)?;
    Ok(closed(connection))
}

/// What stands on the disk is whole, of version 2 where an engine was opened, and an engine over it finds all
/// records. Tells whether it is of version 2.
fn check_migrated(
    rt: &impl Abort,
    alloc: Global,
    files: &Disks,
    (end, stop): (End, (Side, u64)),
) -> Result<bool, Fail> {
    let mut connection = mended(alloc, files)?;
    let is_migrated = check_whole(rt, alloc, &mut connection)?;
    assert!(rt; is_migrated || !matches!(end, End::Answered(_)), "{stop:?}");
    check_left(rt, alloc, &GET, files, (end, stop))?;
    Ok(is_migrated)
}

/// An opening over copies of the files, of which one fails after so many calls. What stands is looked at as
/// it was written, and then without what wasn't synced. Tells whether no file has failed, and whether what
/// stands at last is of version 2.
fn looked_at(
    rt: &impl Abort,
    alloc: Global,
    files: &Disks,
    stop: (Side, u64),
) -> Result<(bool, bool), Fail> {
    let Stopped {
        end,
        mut files,
        is_whole,
    } = run_stopped(rt, alloc, &GET, files, stop)?;
    check_migrated(rt, alloc, &files, (end, stop))?;
    files.log.crash();
    files.db.crash();
    let is_migrated = check_migrated(rt, alloc, &files, (end, stop))?;
    Ok((is_whole, is_migrated))
}

/// One of the files fails from its first call on, then from its second, and so on until an opening and the
/// get behind it meet no failure. Tells whether version 1 stood behind a failure, and whether version 2 did.
fn check_openings(rt: &impl Abort, alloc: Global, side: Side) -> Result<(bool, bool), Fail> {
    let files = of_version_1(alloc)?;
    let (mut is_old, mut is_new) = (false, false);
    for calls in 0..MOST {
        let (is_whole, is_migrated) = looked_at(rt, alloc, &files, (side, calls))?;
        if is_whole {
            return Ok((is_old, is_new));
        }
        is_old = is_old || !is_migrated;
        is_new = is_new || is_migrated;
    }
    Err(Fail::new("an opening that doesn't come to its end"))
}

/// A migration is one transaction in the log: before its end version 1 stands, and behind it version 2.
#[test]
fn a_disk_fails_at_each_call_under_a_migration(rt: HostRuntime) -> Result<(), Fail> {
    let stood = check_openings(&rt, rt.alloc(), Side::Log)?;
    assert_eq!(rt; stood, (true, true));
    check_openings(&rt, rt.alloc(), Side::Database)?;
    Ok(())
}
