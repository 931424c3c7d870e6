use fv_datum::Datum;
use fv_path::Path;

/// A constraint that fails in a bundle.
#[derive(Drop)]
pub struct Failure {
    /// The property path.
    pub path: Path,
    /// The number of the constraint over the whole declarations.
    pub number: usize,
    /// The datum that fails, or a reference to the object that does.
    pub value: Datum,
}
