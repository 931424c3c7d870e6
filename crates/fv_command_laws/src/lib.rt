//! That a command is refused exactly for what its places tell: for its shape where `fv_form` finds a misfit, for what
//! isn't there where `fv_command_fault` tells the member, for a bundle's fault where `fv_model_fault` finds it. Nothing
//! stands on it.
#![tactic(auto)]

mod laws;

pub use laws::{
    absences_are_told, faults_are_told, misfits_are_refused, part_faults_are_told, parts_are_told,
};
