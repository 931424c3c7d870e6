ghost use Rattle.std.specs.Prelude.{◌≡◌};
ghost use Rattle.fv_engine_reply.specs.Texts.{misfit_code, refusal_told};

use fv_declare_judging::DeclFault;
use fv_model::BundleFault;
use fv_validate::{Judged, Violation};

/// What a taken command did to the records.
#[derive(Clone, Copy, Debug, PartialEq, Eq)]
pub enum Done {
    Put,
    Set,
    Remove,
    Batch,
}

/// What a command is answered.
#[derive(Drop)]
pub enum Answer {
    /// A command that changes records was taken.
    Done(Done),
    /// A command that changes records, or declarations over them, was refused, with all violations of
    /// the records that have some.
    Violated { records: Vec<Judged> },
    /// All violations of a record that was checked.
    Checked { violations: Vec<Violation> },
    /// Those of a field of a stored object.
    FieldChecked { violations: Vec<Violation> },
    /// Those of a value that isn't stored.
    ValueChecked { violations: Vec<Violation> },
    /// Ids of a form.
    Ids { ids: Vec<String> },
    /// Another refusal.
    Refused(Refusal),
    /// The same for a part of a batch, by its number from 0.
    PartRefused { part: usize, why: Refusal },
    /// Declarations were changed.
    Redeclared,
    /// C13: declarations aren't taken, by their first fault.
    Misdeclared(DeclFault),
    /// C14: a stored record doesn't fit other declarations, the first by its id.
    Unfit { id: String, why: Misfit },
}

/// Why a stored record doesn't fit other declarations.
#[derive(Clone, Copy, Debug, PartialEq, Eq)]
pub enum Misfit {
    /// Its form isn't declared; told as C4.
    UnknownForm,
    /// Its bundle has a fault under them.
    Bundle(BundleFault),
}

impl Misfit {
    /// The code that tells it: `C4`, or the code of the bundle's fault.
    pub fn code(&self) -> &str
        ensures { result.now ≡ misfit_code self.now }
    {
        match self {
            Misfit::UnknownForm => "C4",
            Misfit::Bundle(fault) => fault.code(),
        }
    }
}

/// Why a command is refused, but for violations.
#[derive(Clone, Copy, Debug, PartialEq, Eq)]
pub enum Refusal {
    /// C1: more than 1,048,576 bytes, the line's end not counted.
    LineTooLong,
    /// C2: not UTF-8 or not JSON.
    NotJson,
    /// C3: no command, also where a put's bundle isn't of a bundle's form.
    Shape,
    /// C4: the form of a put or a list isn't declared.
    UnknownForm,
    /// C5: the bundle of a put, what a set names or gives, or the value of a checkvalue has a fault.
    Bundle(BundleFault),
    /// C6: the id of a set, a remove, a get, a check or a checkfield has no record.
    NoRecord,
    /// C7: a group that a check of any sort names isn't declared.
    UnknownGroup,
    /// C8: a checkfield's record has no such object, or a type has no such field or isn't declared.
    NoSuchField,
    /// C9: a changed record, one that is judged under other declarations, or a check of any sort has more
    /// than 4,096 visits.
    TooManyVisits,
    /// C11: the store couldn't do it.
    Store,
    /// C12: an allocation was refused.
    Memory,
}

impl Refusal {
    /// The refusal's code.
    pub fn code(self) -> &'static str
        ensures { result.now ≡ (refusal_told self).0 }
    {
        match self {
            Refusal::LineTooLong => "C1",
            Refusal::NotJson => "C2",
            Refusal::Shape => "C3",
            Refusal::UnknownForm => "C4",
            Refusal::Bundle(_) => "C5",
            Refusal::NoRecord => "C6",
            Refusal::UnknownGroup => "C7",
            Refusal::NoSuchField => "C8",
            Refusal::TooManyVisits => "C9",
            Refusal::Store => "C11",
            Refusal::Memory => "C12",
        }
    }

    /// The refusal's name.
    pub fn name(self) -> &'static str
        ensures { result.now ≡ (refusal_told self).1 }
    {
        match self {
            Refusal::LineTooLong => "LineTooLong",
            Refusal::NotJson => "NotJson",
            Refusal::Shape => "Shape",
            Refusal::UnknownForm => "UnknownForm",
            Refusal::Bundle(_) => "Bundle",
            Refusal::NoRecord => "NoRecord",
            Refusal::UnknownGroup => "UnknownGroup",
            Refusal::NoSuchField => "NoSuchField",
            Refusal::TooManyVisits => "TooManyVisits",
            Refusal::Store => "Store",
            Refusal::Memory => "Memory",
        }
    }
}
