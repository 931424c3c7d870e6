//! Files as bytes, up to a limit.
ghost use Rattle.std.specs.Prelude.{◌≡◌, ◌⊎◌, IfErr, IfOk};
ghost use Rattle.std.specs.IoError.{error_kind};
ghost use Rattle.formd_task.specs.FaultNames.{FaultOf, file_fault_name};
ghost use Rattle.formd_task.specs.Reading.{FailsAs, Unread, Whole};

use crate::bytes::{Bytes, Opens};
use std::alloc::Global;
use std::io::{Error, ErrorKind};

/// The most bytes of a file that is read.
const MOST_BYTES: usize = 16777216;

/// Why a file isn't read.
#[derive(Clone, Copy, Debug, PartialEq, Eq, thiserror::Error)]
pub enum FileFault {
    /// It isn't opened, a read failed, or it has more bytes than are read.
    #[error("a file that can't be read")]
    Unreadable,
    /// An allocation was refused.
    #[error("out of memory")]
    Memory,
}

impl FileFault {
    /// The fault's name.
    pub fn name(&self) -> &str
        ensures { result.now ≡ file_fault_name self.now }
    {
        match self {
            FileFault::Unreadable => "Unreadable",
            FileFault::Memory => "Memory",
        }
    }
}

impl From<Error> for FileFault {
    ghost from_gives = { λ error fault. FaultOf (error_kind error) fault };

    fn from(error: Error) -> FileFault {
        match error.kind() {
            ErrorKind::OutOfMemory => FileFault::Memory,
            _ => FileFault::Unreadable,
        }
    }
}

/// All that a reader gives, up to the limit: with more it isn't readable.
pub fn read_whole<R: Bytes>(alloc: Global, reader: R) -> Result<Vec<u8>, FileFault>
    ensures whole { IfOk result (λ bytes. Whole R.Bytes reader bytes.items) }
    ensures refused { IfErr result (Unread R.Bytes reader) }
{
    let mut bytes = Vec::new(alloc);
    reader.read_front(MOST_BYTES as u64 + 1, &mut bytes)?;
    let too_long = bytes.len() > MOST_BYTES;
    if too_long {
        return Err(FileFault::Unreadable);
    }
    Ok(bytes)
}

/// The bytes of the file at a path, 16,777,216 at most. A folder isn't readable.
pub fn read_file<F: Opens>(alloc: Global, files: &F, path: &str) -> Result<Vec<u8>, FileFault>
    ensures whole { IfOk result (λ bytes. (reader : F.Reader)
        × F.opens files.now path.now reader × Whole F.Reader.Bytes reader bytes.items) }
    ensures refused { IfErr result (λ fault. FailsAs (F.fails files.now path.now) fault
        ⊎ ((reader : F.Reader) × F.opens files.now path.now reader × Unread F.Reader.Bytes reader fault)) }
{
    read_whole(alloc, files.open_file(path)?)
}
