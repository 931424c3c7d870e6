//! The words of formd: what they do, statuses, the texts on standard error.
#![tactic(auto)]

mod answering;
mod comparing;
mod declarations;
mod demonstration;
mod explaining;
mod exporting;
mod failure;
mod given;
mod in_force;
mod judging;
mod rehearsing;
mod running;
mod schemas;
mod serving;
mod standing;
mod telling;
mod writing;

pub use failure::Failure;
pub use given::given_words;
pub use running::run_words;
