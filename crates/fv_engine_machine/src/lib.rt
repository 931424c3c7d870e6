//! The record machine: what a line does to the records, and its reply. What a put, a set, a remove or
//! a batch leaves is judged and stored where it has no violation, a get shows what is stored, a check
//! lists its violations, and a list gives the ids of a form. A redeclare judges every stored record
//! under other declarations, and puts them in force where none has a violation. A line can be judged
//! without records, too.
#![tactic(auto)]

mod answering;
mod bare;
mod changing;
mod checking;
mod fields;
mod listing;
mod redeclaring;
mod refusing;
mod shared_rules;

pub use answering::reply_to_line;
pub use bare::judge_line;
pub use redeclaring::read_rulebook;
pub use shared_rules::SharedRules;
