ghost use Rattle.std.specs.Prelude.{◌≡◌, ◌⊎◌, ◌++◌, ℕ, codes, IfErr, OnErr, OnOk};
ghost use Rattle.std.specs.Io.KnownBytes.{Appends};
ghost use Rattle.fv_engine_lines.specs.Reads.{Times};
ghost use Rattle.fv_engine_lines.specs.Writes.{Breaks};
ghost use Rattle.formd_words.specs.FaultNames.{failure_name};
ghost use Rattle.formd_words.specs.Failures.{failure_status, failure_text};

use formd_task::FileFault;
use fv_declare::DeclFault;
use fv_engine::{OpenFault, ServeFault};
use fv_engine_lines::{Output, WriteFailed, write_bytes};
use fv_store::OpenStoreFault;
use std::alloc::{AllocError, AllocFailed};
use thiserror::Error;

/// The text for words that aren't UTF-8, in the form of the other refusals of words.
const NOT_UTF8: &str = "error: invalid UTF-8 was detected in one or more arguments

Usage: formd [COMMAND]

For more information, try '--help'.
";

/// Why the program ended early: its text on standard error and its exit status.
#[derive(Clone, Copy, Debug, PartialEq, Eq, Error)]
pub enum Failure {
    /// A word isn't UTF-8.
    #[error("a word that isn't UTF-8")]
    NotUtf8,
    /// The file of the declarations can't be read.
    #[error("declarations that can't be read")]
    Unreadable,
    /// The database's file can't be opened or made, is in use, or holds no sound database.
    #[error("a database that can't be opened")]
    CannotOpen,
    /// The declarations aren't taken.
    #[error("declarations refused")]
    Declarations(DeclFault),
    /// The form that is asked for isn't declared.
    #[error("a form that isn't declared")]
    UnknownForm,
    /// The database isn't taken.
    #[error("store refused")]
    Store(OpenStoreFault),
    /// A read failed, or there were too many of them.
    #[error("a read failed")]
    Read,
    /// A write or a flush failed, or a write took nothing.
    #[error("a write failed")]
    Write,
    /// An allocation was refused.
    #[error("out of memory")]
    Memory,
}

impl From<AllocError> for Failure {
    ghost use Rattle.std.specs.Prelude.{◌≡◌};
    ghost use Rattle.formd_words.specs.declared.failure.Failure.TheVariants.{Memory};

    ghost from_gives = { λ _ told. told ≡ Memory };

    fn from(_e: AllocError) -> Failure {
        Failure::Memory
    }
}

impl<T: Drop> From<AllocFailed<T>> for Failure {
    ghost use Rattle.std.specs.Prelude.{◌≡◌};
    ghost use Rattle.formd_words.specs.declared.failure.Failure.TheVariants.{Memory};

    ghost from_gives = { λ _ told. told ≡ Memory };

    fn from(_e: AllocFailed<T>) -> Failure {
        Failure::Memory
    }
}

impl From<FileFault> for Failure {
    ghost use Rattle.std.specs.Prelude.{◌≡◌};
    ghost use Rattle.formd_words.specs.Failures.{file_failure};

    ghost from_gives = { λ fault told. told ≡ file_failure fault };

    fn from(fault: FileFault) -> Failure {
        match fault {
            FileFault::Unreadable => Failure::Unreadable,
            FileFault::Memory => Failure::Memory,
        }
    }
}

impl From<DeclFault> for Failure {
    ghost use Rattle.formd_words.specs.Failures.{IsOfDeclarations};

    ghost from_gives = { IsOfDeclarations };

    fn from(fault: DeclFault) -> Failure {
        match fault {
            DeclFault::Memory => Failure::Memory,
            other => Failure::Declarations(other),
        }
    }
}

impl From<OpenFault> for Failure {
    ghost use Rattle.formd_words.specs.Failures.{IsOfOpening};

    ghost from_gives = { IsOfOpening };

    fn from(fault: OpenFault) -> Failure {
        match fault {
            OpenFault::Declarations(fault) => Failure::from(fault),
            OpenFault::Store(fault) => Failure::Store(fault),
            OpenFault::Memory => Failure::Memory,
        }
    }
}

impl From<ServeFault> for Failure {
    ghost use Rattle.std.specs.Prelude.{◌≡◌};
    ghost use Rattle.formd_words.specs.Failures.{serve_failure};

    ghost from_gives = { λ fault told. told ≡ serve_failure fault };

    fn from(fault: ServeFault) -> Failure {
        match fault {
            ServeFault::Read => Failure::Read,
            ServeFault::Write => Failure::Write,
            ServeFault::Memory => Failure::Memory,
        }
    }
}

impl From<WriteFailed> for Failure {
    ghost use Rattle.std.specs.Prelude.{◌≡◌};
    ghost use Rattle.formd_words.specs.declared.failure.Failure.TheVariants.{Write};

    ghost from_gives = { λ _ told. told ≡ Write };

    fn from(_e: WriteFailed) -> Failure {
        Failure::Write
    }
}

/// Writes a text.
fn write_text<E: Output>(error: &mut E, text: &str) -> Result<(), WriteFailed>
    ensures told { OnOk result (Appends (E.contents error.old) (E.contents error.new) text.now) }
    ensures took { OnOk result ((n : ℕ) × Times E.takes n error.old error.new) }
    ensures failed { OnErr result (Breaks E.contents E.takes E.fails error.old error.new text.now) }
{
    write_bytes(error, text.as_bytes())
}

/// Writes a name behind a text, and ends the line.
fn write_named<E: Output>(error: &mut E, text: &str, name: &str) -> Result<(), WriteFailed>
    ensures told { OnOk result (Appends (E.contents error.old) (E.contents error.new)
        (text.now ++ (name.now ++ codes "\n"))) }
    ensures failed { OnErr result (Breaks E.contents E.takes E.fails error.old error.new
        (text.now ++ (name.now ++ codes "\n"))) }
{
    write_text(error, text)?;
    write_text(error, name)?;
    write_text(error, "\n")
}

impl Failure {
    /// The failure's name.
    pub fn name(&self) -> &str
        ensures { result.now ≡ failure_name self.now }
    {
        match self {
            Failure::NotUtf8 => "NotUtf8",
            Failure::Unreadable => "Unreadable",
            Failure::CannotOpen => "CannotOpen",
            Failure::Declarations(_) => "Declarations",
            Failure::UnknownForm => "UnknownForm",
            Failure::Store(_) => "Store",
            Failure::Read => "Read",
            Failure::Write => "Write",
            Failure::Memory => "Memory",
        }
    }

    /// The exit status: 2 for words, 3 for declarations, else 4.
    fn status(self) -> u8
        ensures { result ≡ failure_status self }
    {
        match self {
            Failure::NotUtf8 => 2,
            Failure::Declarations(_) => 3,
            _ => 4,
        }
    }

    /// Writes the text.
    fn write<E: Output>(self, error: &mut E) -> Result<(), WriteFailed>
        ensures told { OnOk result (Appends (E.contents error.old) (E.contents error.new) (failure_text self)) }
        ensures failed { OnErr result (Breaks E.contents E.takes E.fails error.old error.new (failure_text self)) }
    {
        match self {
            Failure::NotUtf8 => write_text(error, NOT_UTF8),
            Failure::Unreadable => write_text(error, "formd: cannot read declarations\n"),
            Failure::CannotOpen => write_text(error, "formd: cannot open database\n"),
            Failure::Declarations(fault) => {
                write_text(error, "formd: declarations refused: ")?;
                write_text(error, fault.code())?;
                write_named(error, " ", fault.name())
            }
            Failure::UnknownForm => write_text(error, "formd: no such form\n"),
            Failure::Store(fault) => write_named(error, "formd: store: ", fault.name()),
            Failure::Read => write_text(error, "formd: read\n"),
            Failure::Write => write_text(error, "formd: write\n"),
            Failure::Memory => write_text(error, "formd: memory\n"),
        }
    }

    /// Writes the text and gives the exit status, also where the text isn't taken.
    pub fn report<E: Output>(self, error: &mut E) -> u8
        ensures status { result ≡ failure_status self }
        ensures told { Appends (E.contents error.old) (E.contents error.new) (failure_text self)
            ⊎ Breaks E.contents E.takes E.fails error.old error.new (failure_text self) }
    {
        let _ = self.write(error);
        self.status()
    }
}

/// The exit status of what was done: 0, or that of the failure, whose text is written.
pub(crate) fn finish<E: Output>(done: Result<(), Failure>, error: &mut E) -> u8
    ensures done { OnOk done ((result ≡ 0) × (error.new ≡ error.old)) }
    ensures status { IfErr done (λ failure. result ≡ failure_status failure) }
    ensures told { IfErr done (λ failure. Appends (E.contents error.old) (E.contents error.new) (failure_text failure)
        ⊎ Breaks E.contents E.takes E.fails error.old error.new (failure_text failure)) }
{
    match done {
        Ok(()) => 0,
        Err(failure) => failure.report(error),
    }
}
