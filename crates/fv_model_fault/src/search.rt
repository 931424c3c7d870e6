//! Whether a datum has the flaw that is looked for.
ghost use Rattle.std.specs.Prelude.{◌≡◌, Some, IfOk, option_map};
ghost use Rattle.serde_json.specs.View.{view as json_view};
ghost use Rattle.fv_bundle.specs.Flaws.{misfits};
ghost use Rattle.fv_bundle.specs.Types.{type_use_view};
ghost use Rattle.fv_model_fault.specs.SearchViews.{sought};

use fv_bundle::{TypeNames, TypeUse, flaws_of, read_use};
use fv_datum::DatumFault;
use fv_model::BundleFault;
use serde_json::Value;
use std::alloc::{AllocError, Global};

/// What is looked for: the flaw that a fault is, among objects whose types have these names.
#[derive(Clone, Copy)]
pub(crate) struct Search<'s, 'n> {
    pub(crate) alloc: Global,
    pub(crate) fault: BundleFault,
    pub(crate) type_names: &'s TypeNames<'n>,
}

/// Whether a value spells no datum of a type use.
fn misfits(alloc: Global, type_use: &TypeUse, value: &Value) -> Result<bool, AllocError>
    ensures { IfOk result (λ b. b ≡ misfits (Some (type_use_view type_use.now)) (json_view value.now)) }
{
    match read_use(alloc, type_use, value) {
        Ok(_) => Ok(false),
        Err(DatumFault::WrongKind) => Ok(true),
        Err(DatumFault::Memory) => Err(AllocError),
    }
}

impl Search<'_, '_> {
    /// Whether a value of a type use has the flaw.
    pub(crate) fn has_flaw(&self, type_use: &TypeUse, value: &Value) -> Result<bool, AllocError>
        ensures { IfOk result (λ b. b ≡ sought self.now (Some (type_use_view type_use.now)) (json_view value.now)) }
    {
        match self.fault {
            BundleFault::WrongKind => misfits(self.alloc, type_use, value),
            BundleFault::DanglingRef => Ok(flaws_of(self.type_names, type_use, value).dangling),
            BundleFault::RefType => Ok(flaws_of(self.type_names, type_use, value).stray),
            BundleFault::TooLarge => Ok(flaws_of(self.type_names, type_use, value).large),
            _ => Ok(false),
        }
    }

    /// The same of a datum that is given for a field: none where the object's type has no such field.
    pub(crate) fn has_flaw_at(
        &self,
        type_use: Option<&TypeUse>,
        value: &Value,
    ) -> Result<bool, AllocError>
        ensures { IfOk result (λ b. b ≡ sought self.now (option_map (λ u. type_use_view u.now) type_use.entry) (json_view value.now)) }
    {
        match type_use {
            None => Ok(self.fault == BundleFault::UnknownField),
            Some(type_use) => self.has_flaw(type_use, value),
        }
    }
}
