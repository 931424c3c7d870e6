//! A service with a validator of its own: the code of an order is of capital letters alone.
#![tactic(auto)]

mod orders;
mod service;

use anyhow::Error;
use fv_datum::{Attrs, Datum, Kind};
use fv_registry::{FieldCall, FieldValidator, Registry};
use orders::{Orders, capitals};
use service::serve_orders;

/// Makes the validator and hands it in.
fn main(rt: HostRuntime) -> Result<(), Error> {
    let alloc = rt.alloc();
    let call: FieldCall = Box::new(alloc, |datum: &Datum, _attrs: &Attrs| capitals(datum))?;
    let fields = vec![in alloc;
        FieldValidator {
            rule: 7,
            kinds: vec![in alloc; Kind::Text]?,
            call
        },
    ]?;
    let registry = Registry::<Orders>::new(alloc, fields, Vec::new(alloc))?;
    serve_orders(alloc, registry, &mut rt.stdin(), &mut rt.stdout())
}
