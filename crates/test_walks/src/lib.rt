//! Tests of what is judged by declarations, over worked examples whose wanted answers are written down:
//! how many visits a request has and enters, what fails in a bundle by the walk and by a plain list of
//! its visits, what fails in one object by itself, and violations as they are listed; and worked examples
//! of traces and violations, each the contract of a function that does nothing.
#![tactic(auto)]

#[cfg(test)]
mod faults;
#[cfg(test)]
mod judged;
#[cfg(test)]
mod listed;
#[cfg(test)]
mod ordered;
mod trace_rows;
#[cfg(test)]
mod walked;

pub use trace_rows::{
    conversion_takes_place_once, group_asked_for_beside_default, object_fails_at_its_own_path,
    object_on_the_way_is_left_out, other_fields_stop_nothing, sequence_asked_for_stops_as_a_whole,
    sequence_of_a_type_is_its_own, sequences_by_conversion_stop_apart, visits_of_a_chain,
};
