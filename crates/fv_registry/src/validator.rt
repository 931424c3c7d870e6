use fv_bundle::Object;
use fv_datum::{Attrs, Datum, Kind};

/// A closure that tells whether a rule holds of a datum, with the attributes in effect.
pub type FieldCall = Box<dyn Fn(&Datum, &Attrs) -> bool>;

/// A closure that tells whether a rule holds of an object, with the attributes in effect.
pub type ObjectCall = Box<dyn Fn(&Object, &Attrs) -> bool>;

/// A validator of data of some kinds. It is asked about null too.
#[derive(Drop)]
pub struct FieldValidator {
    /// The rule's number.
    pub rule: u32,
    /// The kinds of the places at which it may be used.
    pub kinds: Vec<Kind>,
    pub call: FieldCall,
    pub ghost callable: { FieldCall.IsAlwaysCallable call },
}

/// A validator of objects.
#[derive(Drop)]
pub struct ObjectValidator {
    /// The rule's number.
    pub rule: u32,
    pub call: ObjectCall,
    pub ghost callable: { ObjectCall.IsAlwaysCallable call },
}
