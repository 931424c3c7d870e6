//! Replies: what a command is answered, as a value, and the line of JSON that tells it.
#![tactic(auto)]

mod answer;
mod reply;
mod texts;

pub use answer::{Answer, Done, Misfit, Refusal};
pub use reply::Reply;
