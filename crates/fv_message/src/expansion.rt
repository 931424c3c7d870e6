//! What the texts of keys become but for attributes.
ghost use Rattle.std.specs.Prelude.{◌≡◌, [], OnOk};
ghost use Rattle.fv_datum.specs.Attributes.{Attributes};
ghost use Rattle.fv_message.specs.Expanded.{expansion_text, GrowsBy};
ghost use Rattle.fv_message.specs.Full.{shown};

use std::alloc::{AllocError, Global};
use std::mem;

/// A parameter that is no key, by its name, and the plain text in front of it.
#[derive(Drop)]
pub(crate) struct Slot {
    pub(crate) before: String,
    pub(crate) name: String,
}

/// What a key's text becomes but for attributes: slots in order, and the plain text behind them.
#[derive(Drop)]
pub(crate) struct Expansion {
    pub(crate) slots: Vec<Slot>,
    pub(crate) rest: String,
}

impl Expansion {
    /// What an empty text becomes.
    pub(crate) fn new(alloc: Global) -> Expansion
        ensures { (attributes : Attributes) → expansion_text attributes result ≡ [] }
    {
        Expansion {
            slots: Vec::new(alloc),
            rest: String::new(alloc),
        }
    }

    /// Adds plain text.
    pub(crate) fn push_plain(&mut self, plain: &str) -> Result<(), AllocError>
        ensures { OnOk result (GrowsBy (λ _. plain.now) self.old self.new) }
    {
        self.rest.push_str(plain)
    }

    /// Adds a parameter that is no key.
    pub(crate) fn push_parameter(&mut self, alloc: Global, name: &str) -> Result<(), AllocError>
        ensures { OnOk result (GrowsBy (λ attributes. shown attributes name.now) self.old self.new) }
    {
        let name = String::from_str(alloc, name)?;
        let before = mem::replace(&mut self.rest, String::new(alloc));
        self.slots.push(Slot { before, name })?;
        Ok(())
    }

    /// Adds what another key's text becomes.
    pub(crate) fn append(&mut self, alloc: Global, other: &Expansion) -> Result<(), AllocError>
        ensures { OnOk result (GrowsBy (λ attributes. expansion_text attributes other.now) self.old self.new) }
    {
        for slot in &other.slots {
            self.push_plain(slot.before.as_str())?;
            self.push_parameter(alloc, slot.name.as_str())?;
        }
        self.push_plain(other.rest.as_str())
    }
}
