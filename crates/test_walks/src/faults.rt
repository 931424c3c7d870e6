//! The texts of faults, a line each.
use crate::judged::check;
use fv_bundle::TypesFault;
use fv_datum::{DatumFault, JsonFault};
use fv_declare::DeclFault;
use fv_declare_schema::GroupFault;
use fv_model::BundleFault;
use fv_registry::RegistryFault;
use fv_validate::ValidateFault;
use fv_walk::{PropertyFault, WalkFault};
use std::alloc::Global;
use std::fmt::Display;
use std::test::Fail;

/// Adds the texts of faults, a line each.
fn tell<F: Display>(text: &mut String, faults: &[F]) -> Result<(), Fail> {
    for fault in faults {
        write!(text, "{fault}\n")?;
    }
    Ok(())
}

/// The texts of faults of data, JSON, types, groups and registries.
const OF_PARTS: &str = "a datum of another kind
out of memory
not JSON
out of memory
a reference to a type that isn't declared
too many types, fields or nested containers
out of memory
a group that isn't declared
a group that inherits itself
a sequence that contains itself
a group that inherits a sequence
too many groups
out of memory
a rule's number stands twice
more than 256 validators
out of memory
";

fn told_of_parts(alloc: Global) -> Result<String, Fail> {
    let mut text = String::new(alloc);
    tell(&mut text, &[DatumFault::WrongKind, DatumFault::Memory])?;
    tell(&mut text, &[JsonFault::NotJson, JsonFault::Memory])?;
    let of_types = [
        TypesFault::UnknownType,
        TypesFault::TooLarge,
        TypesFault::Memory,
    ];
    tell(&mut text, &of_types)?;
    let of_groups = [
        GroupFault::UnknownGroup,
        GroupFault::CyclicInheritance,
        GroupFault::CyclicSequence,
        GroupFault::SequenceMisused,
        GroupFault::TooLarge,
        GroupFault::Memory,
    ];
    tell(&mut text, &of_groups)?;
    let of_registries = [
        RegistryFault::DuplicateRule,
        RegistryFault::TooMany,
        RegistryFault::Memory,
    ];
    tell(&mut text, &of_registries)?;
    Ok(text)
}

/// The texts of faults of bundles and declarations.
const OF_READING: &str = "not a bundle
an object's name is no name
the root names no object
an object's type isn't declared
a field that the type doesn't have
a datum of another kind
a reference to no object
a reference to an object of another type
too large
the root is of another type
no such object
out of memory
not JSON
not declarations
a declared name that is no name or is taken
a type or constraint that isn't declared
a group that isn't declared
a group that inherits itself
a sequence that contains itself
a sequence that is inherited or a constraint's group
a type's sequence without the type
a type's sequence with the default group
a conversion or validation that can't stand where it does
a constraint that is composed of itself
a constraint with neither a rule nor a composing constraint
too large
a rule that isn't registered
an attribute that the constraint refuses
a constraint at a place of another sort or kind
a pattern that isn't built
a message that isn't well written
a message that contains itself
out of memory
";

fn told_of_reading(alloc: Global) -> Result<String, Fail> {
    let mut text = String::new(alloc);
    let of_bundles = [
        BundleFault::Shape,
        BundleFault::BadName,
        BundleFault::RootMissing,
        BundleFault::UnknownType,
        BundleFault::UnknownField,
        BundleFault::WrongKind,
        BundleFault::DanglingRef,
        BundleFault::RefType,
        BundleFault::TooLarge,
        BundleFault::RootType,
        BundleFault::NoObject,
        BundleFault::Memory,
    ];
    tell(&mut text, &of_bundles)?;
    let of_declarations = [
        DeclFault::NotJson,
        DeclFault::Shape,
        DeclFault::BadName,
        DeclFault::UnknownName,
        DeclFault::UnknownGroup,
        DeclFault::CyclicInheritance,
        DeclFault::CyclicSequence,
        DeclFault::SequenceMisused,
        DeclFault::SequenceLacksType,
        DeclFault::DefaultInTypeSequence,
        DeclFault::ConversionMisplaced,
        DeclFault::CyclicComposition,
        DeclFault::EmptyConstraint,
        DeclFault::TooLarge,
        DeclFault::UnknownRule,
        DeclFault::Attribute,
        DeclFault::UnexpectedType,
        DeclFault::BadPattern,
        DeclFault::MessageSyntax,
        DeclFault::MessageCycle,
        DeclFault::Memory,
    ];
    tell(&mut text, &of_declarations)?;
    Ok(text)
}

/// The texts of faults of walks, of one field and of validation.
const OF_WALKS: &str = "unknown group
too many visits
out of memory
no such field
too many visits
out of memory
unknown group
no such field
too many visits
out of memory
";

fn told_of_walks(alloc: Global) -> Result<String, Fail> {
    let mut text = String::new(alloc);
    let of_bundles = [
        WalkFault::UnknownGroup,
        WalkFault::TooManyVisits,
        WalkFault::Memory,
    ];
    tell(&mut text, &of_bundles)?;
    let of_fields = [
        PropertyFault::NoSuchField,
        PropertyFault::TooManyVisits,
        PropertyFault::Memory,
    ];
    tell(&mut text, &of_fields)?;
    let of_validation = [
        ValidateFault::UnknownGroup,
        ValidateFault::NoSuchField,
        ValidateFault::TooManyVisits,
        ValidateFault::Memory,
    ];
    tell(&mut text, &of_validation)?;
    Ok(text)
}

#[test]
fn faults_have_texts(rt: HostRuntime) -> Result<(), Fail> {
    check(&rt, told_of_parts(rt.alloc())?.as_str(), OF_PARTS, "parts");
    check(
        &rt,
        told_of_reading(rt.alloc())?.as_str(),
        OF_READING,
        "reading",
    );
    check(&rt, told_of_walks(rt.alloc())?.as_str(), OF_WALKS, "walks");
    Ok(())
}
