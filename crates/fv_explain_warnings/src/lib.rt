//! Warnings of declarations that are taken, and may not mean what they say; the types that others lead to, and the
//! groups that others inherit.
#![tactic(auto)]

mod reach;
mod twice;
mod uses;
mod warning;

pub use reach::{inherits, reached, validated};
pub use warning::warnings;
