//! What the traces, the visits and the violations of a request are: definitions, and their laws as
//! the contracts of functions that do nothing, which a caller's proof may cite (Jakarta Bean
//! Validation 3.0, "Validation routine").
#![tactic(auto)]

mod field;
mod local;
mod shadows;
mod traces;
mod visits;
mod walks;

pub use field::{field_is_narrowed, narrowed_is_tidy};
pub use local::{listing_is_exact, local_failures_are_exact};
pub use shadows::{shadowing_is_transitive, stop_hides_below_alone};
pub use traces::{
    last_word, parts_are_the_walk, shadowed_by_a_spared_trace, told_traces_are_exact,
    told_violations_are_exact,
};
pub use visits::{entered_visits_are_exact, visits_are_exact};
pub use walks::{
    walk_arrives_at_the_visits, walk_enters_the_entered_visits, walk_finds_the_violations,
};
