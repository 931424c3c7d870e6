//! Transcripts of databases, whose wanted answers are written down: what a store or the database itself is
//! asked, and behind each line what it is to answer. The first word names a file of names, and the others
//! files of transcripts; each of these is told by a line, with the transcripts that differ above it.
#![tactic(auto)]

mod database;
mod files;
mod report;
mod store;
mod texts;
mod transcripts;
mod types;

use anyhow::Error;
use files::run_files;

fn main(rt: HostRuntime) -> Result<(), Error> {
    run_files(&rt)
}
