//! The records of a service, kept in a database: what its rows spell of the records, how records are read,
//! listed and changed, and how their declarations are.
#![tactic(auto)]

mod about;
mod changes;
mod fault;
mod joining;
mod opening;
mod redeclaring;
mod store;
mod stored;
mod written;

pub use changes::Change;
pub use fault::{OpenStoreFault, StoreFault};
pub use opening::kept_declarations;
pub use store::Store;
pub use stored::Stored;
pub use written::Written;
