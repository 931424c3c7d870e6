ghost use Rattle.std.specs.Prelude.{◌≡◌, ◌≢◌};

use crate::failure::Failure;
use std::io::ErrorKind;
use std::{env, io};

/// Why the words aren't given, by the kind of the error.
fn not_given(kind: ErrorKind) -> Failure
    ensures memory { kind ≡ ErrorKind.OutOfMemory → result ≡ Failure.Memory }
    ensures other { kind ≢ ErrorKind.OutOfMemory → result ≡ Failure.NotUtf8 }
{
    match kind {
        ErrorKind::OutOfMemory => Failure::Memory,
        _ => Failure::NotUtf8,
    }
}

/// The words behind the program's name, as the machine answers.
fn words_behind_name(rt: &HostRuntime) -> io::Result<Vec<String>> {
    let words = env::args(rt)?.skip(1).collect(rt.alloc())?;
    Ok(words)
}

/// The words behind the program's name. Refused where a word, or that name, isn't UTF-8, or for want
/// of memory.
pub fn given_words(rt: &HostRuntime) -> Result<Vec<String>, Failure> {
    match words_behind_name(rt) {
        Ok(words) => Ok(words),
        Err(error) => Err(not_given(error.kind())),
    }
}
