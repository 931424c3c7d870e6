//! Declarations: a text in, a schema or the first fault out (`read_schema`), with the fault's place
//! (`read_placed`). Drafts are judged in `fv_declare_judging`; what is declared stands in `fv_declare_schema`.
#![tactic(auto)]

mod text;

pub use fv_declare_judging::{At, DeclFault, LimitAt, NamesAt, PlacedFault, WordingAt};
pub use fv_declare_schema::{Place, Placed, Schema};
pub use text::{read_placed, read_schema};
