//! Forms of JSON, told by what each asks of a value: where a value isn't of one. Here the forms of
//! declarations, which are of their form exactly where fv_declare_draft reads them, and of commands, which
//! are exactly where fv_engine_command reads them and fv_model their bundles.
#![tactic(auto)]

mod asking;
mod commands;
mod finding;
mod form;
mod form_name;
mod judging;
mod misfit;
mod tables;

pub use asking::ask;
pub use finding::first_misfit;
pub use form::{Entry, ValueForm};
pub use form_name::FormName;
pub use judging::{command_misfit, draft_misfit};
pub use misfit::{Flaw, FormFault, Inward, Sought};
