//! Openings of an engine, each over fixed data, for a script that refuses one of its requests for memory
//! (tests/refused_allocations.py): the database that a refused opening hands back is opened again by the
//! same process, which no run of formd shows.
//!
//! Standard input has the number of an opening, a line; the program makes its data and writes `ready`. For the
//! next line it opens the database and writes `made`. For the next it tells what was answered, opens what came
//! back again, and tells that too. Between `ready` and `made` it asks for no memory but the opening's.
#![tactic(auto)]

mod given;
mod openings;
mod steps;

use anyhow::Error;

/// Makes the openings that standard input names, to its end.
fn main(rt: HostRuntime) -> Result<(), Error> {
    for _ in 0..u64::MAX {
        let Some(number) = steps::number(&rt)? else {
            break;
        };
        openings::opens(&rt, number)?;
    }
    Ok(())
}
