//! Places in the objects of a type: where a use of a constraint stands, such a use, and a place whose objects are
//! validated, with the groups that are converted on the way.
ghost use Rattle.std.specs.Prelude.{◌≡◌, IfOk};
ghost use Rattle.fv_constraint_tree.specs.TargetViews.{target_view};
ghost use Rattle.fv_declare_schema.specs.Places.{judged_at};
ghost use Rattle.fv_declare_schema.specs.PlaceViews.{place_view};
ghost use Rattle.fv_declare_schema.specs.PlacedView.{placed_view};
ghost use Rattle.fv_declare_schema.specs.Tables.{indices};

use crate::declared::GroupId;
use fv_bundle::TypeId;
use fv_constraint_tree::Occurrence;
use fv_datum::Kind;
use fv_extract::Step;
use std::alloc::AllocError;

/// Where a use of a constraint stands.
#[derive(Debug, PartialEq, Eq, Drop)]
pub enum Place {
    /// At the type itself.
    Whole,
    /// Where these steps lead in the field of that number, at data of the kind.
    Field(usize, Vec<Step>, Kind),
}

impl Place {
    /// What is judged there: objects, or data of the kind.
    pub fn judged_at(&self) -> fv_constraint_tree::Target
        ensures { target_view result ≡ judged_at (place_view self.now) }
    {
        match self {
            Place::Whole => fv_constraint_tree::Target::Object,
            Place::Field(_, _, kind) => fv_constraint_tree::Target::Data(*kind),
        }
    }

    /// The same place.
    pub fn copy(&self) -> Result<Place, AllocError>
        ensures { IfOk result (λ p. place_view p ≡ place_view self.now) }
    {
        match self {
            Place::Whole => Ok(Place::Whole),
            Place::Field(number, steps, kind) => Ok(Place::Field(*number, steps.clone()?, *kind)),
        }
    }
}

/// A use of a constraint where it stands: at the type itself, or at a field or inside it.
#[derive(Drop)]
pub struct Placed {
    type_id: TypeId,
    pub(crate) place: Place,
    number: usize,
    groups: Vec<GroupId>,
    pub(crate) occurrence: Occurrence,
}

impl Placed {
    /// A constraint and those that it is composed of, at the place in the type and in the groups. The
    /// constraint has the number, and those below it the numbers behind.
    pub fn new(
        type_id: TypeId,
        place: Place,
        number: usize,
        groups: Vec<GroupId>,
        occurrence: Occurrence,
    ) -> Placed
        ensures { placed_view result ≡ record {
          type = type_id.index;
          place = place_view place;
          number = number;
          groups = indices groups.items;
          tree = occurrence;
        } }
    {
        Placed {
            type_id,
            place,
            number,
            groups,
            occurrence,
        }
    }

    /// The type.
    pub fn type_id(&self) -> TypeId
        ensures { result.index ≡ (placed_view self.now).type }
    {
        self.type_id
    }

    /// The place in the type.
    pub fn place(&self) -> &Place
        ensures { place_view result.now ≡ (placed_view self.now).place }
    {
        &self.place
    }

    /// The number of the constraint over the whole declarations. Those that it is composed of have
    /// the numbers behind it, in preorder.
    pub fn number(&self) -> usize
        ensures { result ≡ (placed_view self.now).number }
    {
        self.number
    }

    /// The groups that the constraint is in.
    pub fn groups(&self) -> &[GroupId]
        ensures { indices result.now ≡ (placed_view self.now).groups }
    {
        &self.groups
    }

    /// The constraint and those that it is composed of.
    pub fn occurrence(&self) -> &Occurrence
        ensures { result.now ≡ (placed_view self.now).tree }
    {
        &self.occurrence
    }
}

/// A group, and the one that it is converted to.
#[derive(Clone, Copy, Debug, PartialEq, Eq)]
pub struct GroupConversion {
    pub from: GroupId,
    pub to: GroupId,
}

/// A place whose objects are validated.
#[derive(Drop)]
pub struct ValidPlace {
    /// The type's number.
    pub type_index: usize,
    /// The field's number in the type.
    pub field: usize,
    /// The steps from the field to the place.
    pub steps: Vec<Step>,
    /// The conversions on the way, each of another group.
    pub conversions: Vec<GroupConversion>,
}
