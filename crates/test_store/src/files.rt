use crate::report::Report;
use crate::transcripts::run_text;
use anyhow::{Context, Result};
use std::{env, fs};

fn text_of(rt: &HostRuntime, name: &str) -> Result<String> {
    fs::read_to_string(rt, name).context(format_args!("reading {name}"))
}

/// Runs the transcripts of a file, and tells those that differ, how many there are and how many differ.
fn run_file(rt: &HostRuntime, names: &str, name: &str) -> Result<()> {
    let alloc = rt.alloc();
    let text = text_of(rt, name)?;
    let mut report = Report::new(alloc);
    run_text(alloc, names, text.as_str(), &mut report).context(format_args!("in {name}"))?;
    let text = report.text.as_str();
    let transcripts = report.transcripts;
    let wrong = report.wrong;
    println!(rt; "{text}{name}: {transcripts} transcripts, {wrong} differ")?;
    Ok(())
}

/// Runs the transcripts of the files that the program's words name behind the first, which names a file of
/// names.
pub(crate) fn run_files(rt: &HostRuntime) -> Result<()> {
    let mut words = env::args(rt)?.skip(1);
    let names = words.next().context("no file of names")?;
    let names = text_of(rt, names.as_str())?;
    for name in words {
        run_file(rt, names.as_str(), name.as_str())?;
    }
    Ok(())
}
