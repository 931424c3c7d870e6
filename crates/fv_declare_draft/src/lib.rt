//! Declarations as they are written: JSON in, a draft out, or none where the form isn't kept; and the
//! uses of constraints and the cascades in drafted types, each at its place, in order.
#![tactic(auto)]

mod all_cascades;
mod all_uses;
mod cascades;
mod draft;
mod groups;
mod messages;
mod places;
mod shape;
mod uses;

pub use all_cascades::{Cascade, cascades_in};
pub use all_uses::{Use, uses_in};
pub use draft::{
    CascadeDraft, Conversion, Draft, FieldDraft, FormDraft, GroupDraft, GroupForm, MessageDraft,
    PlacedCascade, PlacedUse, TypeDraft, UseDraft,
};
pub use places::plain_use;
pub use shape::draft_of;
