//! Where a database's files lie.
ghost use Rattle.std.specs.Prelude.{ℕ, List, Option, MatchResult};
ghost use Rattle.std.specs.IoError.{error_kind};
ghost use Rattle.std.specs.declared.fs.Metadata.{Metadata};
ghost use Rattle.std.specs.declared.io.ErrorKind.{ErrorKind};
ghost use Rattle.sqlite.specs.declared.error.Error.{Error};

use sqlite::{Connection, Error, File, FileStore, Files, Leftover, Unknown};
use std::alloc::Global;
use std::fs::Metadata;
use std::path::PathBuf;
use std::time::Duration;
use std::{fs, io, thread};

/// Where a database's files lie. The machine is such a place.
pub trait Location {
    /// An opened database.
    type Opened;

    /// What is left of a database that wasn't opened. Its files are locked until it is dropped.
    type Left: Drop;

    /// The files of a closed database. They are locked until they are dropped.
    type Closed: Drop;

    /// This may be found at a path.
    ghost finds: { Self → List ℕ → Metadata → Type 0 };

    /// What is asked about a path may end in an error of a kind.
    ghost fails: { Self → List ℕ → ErrorKind → Type 0 };

    /// From the place before a removal at a path to that after it.
    ghost removes: { Self → List ℕ → Self → Type 0 };

    /// From the place before so many milliseconds to that after them.
    ghost waits: { Self → ℕ → Self → Type 0 };

    /// From the place before the database at a path was opened to that after it.
    ghost opens: { Self → List ℕ → Self.Opened → Self → Type 0 };

    /// From the place before the database at a path wasn't opened to that after it.
    ghost refuses: { Self → List ℕ → Error → Option Self.Left → Self → Type 0 };

    /// From the place before a database was closed, all that its log has in its file, to that after it.
    ghost closes: { Self → Self.Opened → Self → Type 0 };

    /// From the place before a database was closed whose log wasn't taken over to that after it.
    ghost breaks: { Self → Self.Opened → Self → Type 0 };

    /// What is at a path, where a link at its end isn't followed.
    fn look(&self, path: &str) -> io::Result<Metadata>
        ensures { MatchResult result (finds self.now path.now) (λ e. fails self.now path.now (error_kind e)) };

    /// The path to which the links of a path lead.
    fn lead(&self, alloc: Global, path: &str) -> io::Result<PathBuf>;

    /// Removes the file at a path, where that can be done.
    fn remove(&mut self, path: &str)
        ensures { removes self.old path.now self.new };

    /// Waits so many milliseconds.
    fn wait(&mut self, millis: u64)
        ensures { waits self.old millis self.new };

    /// Opens the database at a path, or makes it.
    fn open(&mut self, path: &str) -> Result<Self::Opened, (Error, Option<Self::Left>)>
        ensures { MatchResult result (λ opened. opens self.old path.now opened self.new)
            (λ e. refuses self.old path.now e.0 e.1 self.new) };

    /// Takes the log over into the database and closes both, in any case.
    fn close(&mut self, opened: Self::Opened) -> Result<Self::Closed, Self::Closed>
        ensures { MatchResult result (λ _. closes self.old opened self.new) (λ _. breaks self.old opened self.new) };
}

impl Location for HostRuntime {
    ghost use Rattle.std.specs.Prelude.{⊤};

    type Opened = Connection<FileStore<File>>;

    type Left = Leftover<File>;

    type Closed = Files<File>;

    // The machine doesn't tell what is there, nor what is done to it.
    ghost finds = { λ _ _ _. ⊤ };

    ghost fails = { λ _ _ _. ⊤ };

    ghost removes = { λ _ _ _. ⊤ };

    ghost waits = { λ _ _ _. ⊤ };

    ghost opens = { λ _ _ _ _. ⊤ };

    ghost refuses = { λ _ _ _ _ _. ⊤ };

    ghost closes = { λ _ _ _. ⊤ };

    ghost breaks = { λ _ _ _. ⊤ };

    fn look(&self, path: &str) -> io::Result<Metadata> {
        fs::symlink_metadata(self, path)
    }

    fn lead(&self, alloc: Global, path: &str) -> io::Result<PathBuf> {
        fs::Files::canonicalize(self, alloc, path)
    }

    fn remove(&mut self, path: &str) {
        let _ = fs::remove_file(self, path);
    }

    fn wait(&mut self, millis: u64) {
        thread::sleep(self, Duration::from_millis(millis));
    }

    fn open(
        &mut self,
        path: &str,
    ) -> Result<Connection<FileStore<File>>, (Error, Option<Leftover<File>>)> {
        Connection::open_from(self, path, false, Unknown)
    }

    fn close(&mut self, opened: Connection<FileStore<File>>) -> Result<Files<File>, Files<File>> {
        match opened.close_files() {
            Ok(files) => Ok(files),
            Err((_, store)) => Err(store.close()),
        }
    }
}
