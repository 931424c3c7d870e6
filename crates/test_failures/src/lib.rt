//! Tests of the service over streams and disks that fail. Readers and writers of one byte a call fail at each
//! of their calls in turn, under each command. Each of the two files of a database fails in turn from each of
//! its calls on, until a run meets no failure: under an opening, under each command, and while a database of
//! version 1 is migrated.
#![tactic(auto)]

#[cfg(test)]
mod engines;
#[cfg(test)]
mod files;
#[cfg(test)]
mod fuses;
#[cfg(test)]
mod migrating;
#[cfg(test)]
mod scripts;
#[cfg(test)]
mod serving;
#[cfg(test)]
mod stops;
#[cfg(test)]
mod streams;
