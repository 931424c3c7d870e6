//! The steps of the program: a line of standard input is awaited before each, in place, so that no memory is
//! asked for there.
use anyhow::Error;
use std::io::{Read, Write};

/// The first byte of the next line of standard input, which has one at most; none at the end.
pub(crate) fn number(rt: &HostRuntime) -> Result<Option<u8>, Error> {
    let mut input = rt.stdin();
    let mut line = [0; 2];
    for at in 0..2 {
        let mut byte = [0];
        if input.read(&mut byte)? == 0 {
            return Ok(None);
        }
        line[at] = byte[0];
        if byte[0] == b'\n' {
            break;
        }
    }
    Ok(Some(line[0]))
}

/// Writes a word, and waits for a line.
pub(crate) fn step(rt: &HostRuntime, word: &[u8]) -> Result<(), Error> {
    rt.stdout().write_all(word)?;
    number(rt)?;
    Ok(())
}
