//! The refusals that faults below are told as.
ghost use Rattle.std.specs.Prelude.{◌≡◌};
ghost use Rattle.fv_engine_machine.specs.Keeping.{misread, unjudged};
ghost use Rattle.fv_engine_machine.specs.Refusals.{part_refusal};

use fv_engine_pending::PartFault;
use fv_engine_reply::Refusal;
use fv_model::BundleFault;
use fv_store::StoreFault;
use fv_validate::ValidateFault;

/// The refusal of a command that the store couldn't do.
pub(crate) fn undone(fault: StoreFault) -> Refusal
    ensures store { fault ≡ StoreFault.Store → result ≡ Refusal.Store }
    ensures memory { fault ≡ StoreFault.Memory → result ≡ Refusal.Memory }
{
    match fault {
        StoreFault::Store => Refusal::Store,
        StoreFault::Memory => Refusal::Memory,
    }
}

/// The refusal of a part that can't be done.
pub(crate) fn part_refusal(fault: PartFault) -> Refusal
    ensures { result ≡ part_refusal fault }
{
    match fault {
        PartFault::UnknownForm => Refusal::UnknownForm,
        PartFault::Bundle(fault) => Refusal::Bundle(fault),
        PartFault::NoRecord => Refusal::NoRecord,
        PartFault::Memory => Refusal::Memory,
    }
}

/// The refusal of a value that has a fault.
pub(crate) fn misread(fault: BundleFault) -> Refusal
    ensures { result ≡ misread fault }
{
    match fault {
        BundleFault::Memory => Refusal::Memory,
        _ => Refusal::Bundle(fault),
    }
}

/// The refusal of a bundle, or of a field of an object, that isn't validated.
pub(crate) fn unjudged(fault: ValidateFault) -> Refusal
    ensures { result ≡ unjudged fault }
{
    match fault {
        ValidateFault::UnknownGroup => Refusal::UnknownGroup,
        ValidateFault::NoSuchField => Refusal::NoSuchField,
        ValidateFault::TooManyVisits => Refusal::TooManyVisits,
        ValidateFault::Memory => Refusal::Memory,
    }
}
