use fv_bundle::TypeUse;
use serde_json::Value;

/// One step from a datum to one that stands in it.
#[derive(Clone, Copy, Debug, PartialEq, Eq)]
pub enum Inner<'a> {
    /// To an item of a list by its index, from 0, or to the content of an optional, whose index is 0.
    Item(usize),
    /// To the value of a map at a key.
    Member(&'a str),
}

/// Where a bundle, or a datum by itself, has a fault.
#[derive(Drop)]
pub struct FaultPlace<'t, 'a> {
    /// The object's name; none where the bundle as a whole has the fault, or a datum by itself.
    pub object: Option<&'a str>,
    /// The field's name as it is given; none where the object as a whole has the fault.
    pub field: Option<&'a str>,
    /// From the field's datum to the value that has the fault.
    pub steps: Vec<Inner<'a>>,
    /// What stands there.
    pub value: &'a Value,
    /// What should stand there; none where the fault isn't one of a datum, or the field isn't declared.
    pub type_use: Option<&'t TypeUse>,
}

/// A set of a bundle's datum: this value in the field of that name of the object of that name.
#[derive(Clone, Copy)]
pub struct DatumSet<'a> {
    pub object: &'a str,
    pub field: &'a str,
    pub value: &'a Value,
}

/// Where a set of a bundle's datum has a fault.
#[derive(Drop)]
pub enum SetPlace<'t, 'a> {
    /// The bundle has no object of the name that the set gives.
    Object,
    /// The object's type has no field of the name that the set gives.
    Field,
    /// In the datum: this place has no object and no field.
    Datum(FaultPlace<'t, 'a>),
}
