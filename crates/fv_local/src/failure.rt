use fv_datum::Datum;
use fv_extract::{Locus, Place};

/// Where in an object something fails.
#[derive(Drop)]
pub enum Spot<'a> {
    /// At the object itself.
    Object,
    /// At a part of it: the place, the locus and the datum there.
    Part(Place<'a>, Locus<'a>, &'a Datum),
}

/// A constraint that fails in an object, by its number over the whole declarations.
#[derive(Drop)]
pub struct LocalFailure<'a> {
    pub spot: Spot<'a>,
    pub number: usize,
}
