//! Declarations judged: a JSON value in, a schema or the first fault out, with its place (`judge`). Drafts are judged: whether each declared name is a name, and free; the templates of
//! messages; groups; the trees that uses of constraints become.
#![tactic(auto)]

mod build;
mod declarations;
mod fault;
mod judging;
mod names;
mod naming;
mod parts;
mod placed;
mod templates;
mod types;
mod used;
mod user;
mod wording;

pub use declarations::judge;
pub use fault::DeclFault;
pub use placed::{At, LimitAt, NamesAt, PlacedFault, WordingAt};
pub use user::user_messages;
