//! From a datum that has a flaw to the innermost value that has it.
ghost use Rattle.std.specs.Prelude.{◌≡◌, true, IfOk, Some, option_map};
ghost use Rattle.serde_json.specs.View.{view as json_view};
ghost use Rattle.fv_bundle.specs.Types.{type_use_view};
ghost use Rattle.fv_model_fault.specs.Places.{IsAlone};
ghost use Rattle.fv_model_fault.specs.SearchViews.{sought};
ghost use Rattle.fv_model_fault.specs.Sought.{HasFlaw};
ghost use Rattle.fv_model_fault.specs.Views.{place_view};

use crate::place::FaultPlace;
use crate::search::Search;
use fv_bundle::TypeUse;
use serde_json::Value;
use std::alloc::AllocError;

impl Search<'_, '_> {
    /// The innermost value with the flaw in a datum that has it.
    pub(crate) fn descend<'t, 'a>(
        &self,
        type_use: &'t TypeUse,
        value: &'a Value,
    ) -> Result<FaultPlace<'t, 'a>, AllocError>
        requires { sought self.now (Some (type_use_view type_use.now)) (json_view value.now) ≡ true }
        ensures flawed { IfOk result (λ p. HasFlaw (sought self.now) (Some (type_use_view type_use.now)) (json_view value.now) (place_view p)) }
        ensures alone { IfOk result (λ p. IsAlone (place_view p)) }
    {
        let mut steps = Vec::new(self.alloc);
        let mut at = type_use;
        let mut inner = value;
        'inward: while let Some((step, held, next)) = self.first_inside(at, inner)? {
            steps.push(step)?;
            at = held;
            inner = next;
        }
        Ok(FaultPlace {
            object: None,
            field: None,
            steps,
            value: inner,
            type_use: Some(at),
        })
    }

    /// The same of a datum that is given for a field. It is the datum itself where the field isn't declared.
    pub(crate) fn descend_at<'t, 'a>(
        &self,
        type_use: Option<&'t TypeUse>,
        value: &'a Value,
    ) -> Result<FaultPlace<'t, 'a>, AllocError>
        requires { sought self.now (option_map (λ u. type_use_view u.now) type_use) (json_view value.now) ≡ true }
        ensures { IfOk result (λ p. HasFlaw (sought self.now) (option_map (λ u. type_use_view u.now) type_use.entry)
            (json_view value.now) (place_view p)) }
    {
        match type_use {
            Some(type_use) => self.descend(type_use, value),
            None => Ok(FaultPlace {
                object: None,
                field: None,
                steps: Vec::new(self.alloc),
                value,
                type_use: None,
            }),
        }
    }
}
