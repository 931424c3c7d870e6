//! Engines that are opened, and what stands behind that.
use crate::given::{DECLARATIONS, FIRST, PUTS, QUESTIONS, REFUSED_DECLARATIONS};
use crate::steps::step;
use anyhow::Error;
use fv_engine::{Engine, OpenFault};
use sqlite::{Connection, MemStore, params};
use std::alloc::{AllocError, Global};
use test_commands::NoRules;

type Service = Engine<NoRules, MemStore>;

const TABLES: &str = "SELECT name FROM sqlite_schema WHERE type = 'table' ORDER BY name";

/// An engine of these declarations over a database, or why none is opened, and the database.
fn opened_over(
    alloc: Global,
    declarations: &str,
    connection: Connection<MemStore>,
) -> Result<Service, (OpenFault, Connection<MemStore>)> {
    Engine::open(alloc, NoRules, declarations.as_bytes(), connection)
}

/// The replies to lines at the moment 0, each with a space before it.
fn replies(alloc: Global, engine: &mut Service, lines: &str) -> Result<String, AllocError> {
    let mut text = String::new(alloc);
    for line in lines.lines() {
        let reply = engine.run(alloc, line.as_bytes(), 0);
        text.push(' ')?;
        text.push_str(reply.text())?;
    }
    Ok(text)
}

/// A database that holds the records.
fn with_records(alloc: Global) -> Result<Connection<MemStore>, Error> {
    let connection = Connection::open_in_memory(alloc)?;
    match opened_over(alloc, DECLARATIONS, connection) {
        Ok(mut engine) => {
            replies(alloc, &mut engine, PUTS)?;
            Ok(engine.into_connection())
        }
        Err((fault, _)) => Err(Error::from(fault)),
    }
}

/// A database with the tables of version 1 and the records, which says that it is of this version.
fn of_version(alloc: Global, version: i64) -> Result<Connection<MemStore>, Error> {
    let mut connection = Connection::open_in_memory(alloc)?;
    connection.execute_batch(FIRST)?;
    let declarations = DECLARATIONS.as_bytes();
    connection.execute(
        "INSERT INTO about VALUES (1, ?1, ?2)",
        params![version, declarations],
    )?;
    Ok(connection)
}

/// The database of an opening's number: an empty one, one with records, one of version 1, one of
/// version 3.
fn database(alloc: Global, number: u8) -> Result<Connection<MemStore>, Error> {
    match number {
        b'0' => Ok(Connection::open_in_memory(alloc)?),
        b'1' | b'4' => with_records(alloc),
        b'2' | b'5' => of_version(alloc, 1),
        _ => of_version(alloc, 3),
    }
}

/// The names of the tables of a database, each with a space before it.
fn tables(alloc: Global, connection: &mut Connection<MemStore>) -> Result<String, Error> {
    let mut names = String::new(alloc);
    for row in &connection.query_all(TABLES, &[])? {
        let name: String = row.get(0)?;
        write!(names, " {name}")?;
    }
    Ok(names)
}

/// Tells what an opening answers: each record and the ids of all, or the fault and the tables that are
/// left. The database comes back.
fn tell(
    rt: &HostRuntime,
    answer: Result<Service, (OpenFault, Connection<MemStore>)>,
) -> Result<Connection<MemStore>, Error> {
    let alloc = rt.alloc();
    match answer {
        Ok(mut engine) => {
            let shown = replies(alloc, &mut engine, QUESTIONS)?;
            println!(rt; "opened{shown}")?;
            Ok(engine.into_connection())
        }
        Err((fault, mut connection)) => {
            let fault = fault.name();
            let tables = tables(alloc, &mut connection)?;
            println!(rt; "{fault}{tables}")?;
            Ok(connection)
        }
    }
}

/// Makes the opening of a number, and again what came back, and opens that with the declarations that
/// are taken.
pub(crate) fn opens(rt: &HostRuntime, number: u8) -> Result<(), Error> {
    let alloc = rt.alloc();
    let declarations = if number < b'4' {
        DECLARATIONS
    } else {
        REFUSED_DECLARATIONS
    };
    let connection = database(alloc, number)?;
    step(rt, b"ready\n")?;
    let answer = opened_over(alloc, declarations, connection);
    step(rt, b"made\n")?;
    let connection = tell(rt, answer)?;
    let connection = tell(rt, opened_over(alloc, declarations, connection))?;
    tell(rt, opened_over(alloc, DECLARATIONS, connection))?;
    Ok(())
}
