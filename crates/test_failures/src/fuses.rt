//! A disk that fails from one of its calls on, under the whole service: what stands on the disk is what was
//! there before the command that met the failure or what it makes, never a part: all records, and the
//! declarations in force.
use crate::files::{Side, empty};
use crate::scripts::{changes, records};
use crate::stops::{are_answered, check_stops, ran};
use std::test::Fail;
use test_commands::{ALL_COMMANDS, Script};

/// Under an opening of empty files by itself, and under one with all commands behind it.
#[test]
fn a_disk_fails_at_each_call_from_the_first_opening_on(rt: HostRuntime) -> Result<(), Fail> {
    let alloc = rt.alloc();
    let opening = Script {
        commands: &[],
        ..ALL_COMMANDS
    };
    for side in [Side::Log, Side::Database] {
        check_stops(&rt, alloc, &opening, &empty(alloc), side)?;
        check_stops(&rt, alloc, &ALL_COMMANDS, &empty(alloc), side)?;
    }
    Ok(())
}

/// A command writes the log, so that each that changes something meets failures of it.
#[test]
fn a_disk_fails_at_each_call_under_a_change(rt: HostRuntime) -> Result<(), Fail> {
    let alloc = rt.alloc();
    let script = records();
    let (end, files) = ran(&rt, alloc, empty(alloc), &script)?;
    assert!(rt; are_answered(&script, end));
    for script in &changes() {
        assert!(rt; check_stops(&rt, alloc, script, &files, Side::Log)?);
        check_stops(&rt, alloc, script, &files, Side::Database)?;
    }
    Ok(())
}
