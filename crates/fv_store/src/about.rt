//! The row of `about`: the tables' version is judged, and the declarations are read.
ghost use Rattle.std.specs.Prelude.{◌≡◌, ◌↔◌, pos, IfErr, IfOk, IsTrue, ℕ, ℤ, List};
ghost use Rattle.sqlite.specs.Order.{column};
ghost use Rattle.sqlite.specs.declared.types.Value.TheVariants.{Int, Blob as Raw};
ghost use Rattle.fv_datum.specs.Outcomes.{Gives, unless_fault};
ghost use Rattle.fv_store.specs.Faults.{IsAboutFault, about_fault};
ghost use Rattle.fv_store.specs.Stands.{first_version, IsEither};
ghost use Rattle.fv_store.specs.Stored.{about_view, told};
ghost use Rattle.fv_store_tables.specs.About.{shown_about};

use crate::fault::OpenStoreFault;
use sqlite::Row;

/// The version of the tables that are migrated.
const FIRST_VERSION: i64 = 1;

/// The version of the tables.
const VERSION: i64 = 2;

/// What the row keeps.
#[derive(Drop)]
pub(crate) struct About {
    pub(crate) version: i64,
    pub(crate) declarations: Vec<u8>,
}

impl About {
    /// Whether the tables have to be migrated.
    pub(crate) fn is_first(&self) -> bool
        ensures { IsTrue result ↔ (self.now.version ≡ pos first_version) }
    {
        self.version == FIRST_VERSION
    }
}

/// What a row shows that is of one of the two versions.
///
/// `OtherVersion`; `Store` for a row of another form; `Memory` at any place. The version is asked
/// first, so that tables of another version may keep their declarations in another way.
pub(crate) fn about_in(row: &Row) -> Result<About, OpenStoreFault>
    ensures told { (version : ℤ) (stored : List ℕ) → row.now ≡ shown_about version stored
        → Gives OpenStoreFault.Memory about_view result (unless_fault (about_fault version) (told version stored)) }
    ensures taken { IfOk result (λ a. IsEither a.version × (column row.now 0 ≡ Int a.version)
        × (column row.now 1 ≡ Raw a.declarations.items)) }
    ensures other { IfErr result (λ e. IsAboutFault e
        → (version : ℤ) × (column row.now 0 ≡ Int version) × (IsEither version → ⊥)) }
    ensures store { IfErr result (λ e. e ≡ OpenStoreFault.Store → (version : ℤ) → column row.now 0 ≡ Int version
        → IsEither version × ((stored : List ℕ) → column row.now 1 ≡ Raw stored → ⊥)) }
{
    let version: i64 = row.get(0)?;
    if version != FIRST_VERSION && version != VERSION {
        return Err(OpenStoreFault::OtherVersion);
    }
    let declarations: Vec<u8> = row.get(1)?;
    Ok(About {
        version,
        declarations,
    })
}
