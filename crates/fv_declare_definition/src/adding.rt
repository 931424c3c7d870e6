//! Maps that are made entry by entry.
ghost use Rattle.std.specs.Prelude.{◌≡◌, ◌++◌, ◌∷◌, ℕ, List, [], OnOk, string_bytes};
ghost use Rattle.fv_datum.specs.Ascending.{IsAscending};
ghost use Rattle.fv_datum.specs.EntryNames.{names_of};

use std::alloc::AllocError;
use std::collections::BTreeMap;

/// Adds an entry under a name that is above those before it.
pub(crate) fn add_last<V: Drop>(
    entries: &mut BTreeMap<String, V>,
    name: &String,
    value: V,
) -> Result<(), AllocError>
    requires { (more : List (List ℕ)) × IsAscending (names_of entries.old.entries ++ string_bytes name.now ∷ more) }
    ensures { OnOk result ((key : _) × (string_bytes key ≡ string_bytes name.now)
        × (entries.new.entries ≡ entries.old.entries ++ (key, value) ∷ [])) }
{
    let _ = entries.insert(name.clone()?, value)?;
    Ok(())
}
