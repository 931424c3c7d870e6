//! Calls of the crates that know no declarations, each over a few rows from outside: what their
//! contracts say is proved, but not that they say what is meant, nor that a call succeeds where there is
//! memory. A table is a text with a row a line, `GIVEN => WANTED`. What a line of the service shows
//! stands among the rows of `test_rows`.
#![tactic(auto)]

#[cfg(test)]
mod builtins;
#[cfg(test)]
mod given;
#[cfg(test)]
mod groups;
#[cfg(test)]
mod paths;
#[cfg(test)]
mod places;
#[cfg(test)]
mod rules;
#[cfg(test)]
mod trees;
