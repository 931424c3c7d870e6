//! The rules of the house: a card number's check digit, a text of a list, dates in order, a sum.
//! Each rule is defined, and has a function that decides it; all are in one registry.
#![tactic(auto)]

mod check_digit;
mod choices;
mod house;
mod named;
mod objects;
mod registry;

pub use check_digit::luhn;
pub use choices::one_of;
pub use house::House;
pub use objects::{not_after, sum_is};
pub use registry::house_registry;
