//! What bytes are read from.
ghost use Rattle.std.specs.Prelude.{◌≡◌, ◌++◌, ℕ, List, Option, IfErr, IfSome, MatchResult, OnOk, take};
ghost use Rattle.std.specs.IoError.{error_kind};
ghost use Rattle.std.specs.declared.io.ErrorKind.{ErrorKind};

use std::fs::Files;
use std::io::Read;
use std::{fs, io};

/// What bytes are read from to the end. Each reader of std is one.
pub trait Bytes {
    /// The bytes that reading will give, where they are known.
    ghost remaining: { Self → Option (List ℕ) };

    /// Reading up to a limit, behind bytes that are there, may leave these.
    ghost gives: { Self → ℕ → List ℕ → List ℕ → Type 0 };

    /// Reading may fail with an error of a kind.
    ghost fails: { Self → ErrorKind → Type 0 };

    /// Reads to the end, or up to a limit, behind the bytes that are there.
    fn read_front(self, limit: u64, bytes: &mut Vec<u8>) -> io::Result<usize>
        ensures bytes { OnOk result (IfSome (remaining self)
            (λ given. bytes.new.items ≡ bytes.old.items ++ take limit given)) }
        ensures given { OnOk result (gives self limit bytes.old.items bytes.new.items) }
        ensures failed { IfErr result (λ e. fails self (error_kind e)) };
}

impl<R: Read + Drop> Bytes for R {
    ghost use Rattle.std.specs.Prelude.{⊤};

    ghost remaining = { R.remaining };

    // A reader of std doesn't tell what it gives where that isn't known, nor why a read failed.
    ghost gives = { λ _ _ _ _. ⊤ };

    ghost fails = { λ _ _. ⊤ };

    fn read_front(self, limit: u64, bytes: &mut Vec<u8>) -> io::Result<usize> {
        let mut front = self.take(limit);
        front.read_to_end(bytes)
    }
}

/// Where files are opened. The files of std are such a place.
pub trait Opens {
    /// What an opened file is read by.
    type Reader: Bytes;

    /// Opening a path may give a reader.
    ghost opens: { Self → List ℕ → Self.Reader → Type 0 };

    /// Opening a path may fail with an error of a kind.
    ghost fails: { Self → List ℕ → ErrorKind → Type 0 };

    /// Opens the file at a path, to be read.
    fn open_file(&self, path: &str) -> io::Result<Self::Reader>
        ensures { MatchResult result (opens self.now path.now) (λ e. fails self.now path.now (error_kind e)) };
}

impl<F: Files> Opens for F {
    ghost use Rattle.std.specs.Prelude.{⊤};

    type Reader = F::File;

    // The files of std don't tell what is opened.
    ghost opens = { λ _ _ _. ⊤ };

    ghost fails = { λ _ _ _. ⊤ };

    fn open_file(&self, path: &str) -> io::Result<F::File> {
        fs::open(self, path)
    }
}
