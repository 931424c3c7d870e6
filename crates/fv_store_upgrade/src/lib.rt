//! A database of version 1 is migrated: tables of version 2 stand in place of its own, and keep what its rows kept.
#![tactic(auto)]

mod fault;
mod migrating;
mod records;
mod writing;

pub use fault::UpgradeFault;
pub use migrating::migrate;
