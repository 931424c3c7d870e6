//! The members of each object in declarations and in commands, in the order in which they are looked at.
use crate::form::Entry;
use crate::form_name::FormName;

/// Members, each with its form: those that have to be there, and behind `;` those that may be missing.
macro_rules! entries {
    ($($must:literal $form:ident),*; $($may:literal $other:ident),*) => {
        [
            $(Entry { name: $must, required: true, form: FormName::$form },)*
            $(Entry { name: $may, required: false, form: FormName::$other },)*
        ]
    };
}

pub(crate) static DECLARATIONS: [Entry; 5] = entries!(
    "types" Types, "forms" Forms; "groups" Groups, "constraints" Definitions, "messages" Messages
);

pub(crate) static TYPE: [Entry; 3] =
    entries!("fields" Fields; "constraints" Uses, "sequence" Names);

pub(crate) static FORM: [Entry; 2] = entries!("root" Text; "groups" Names);

pub(crate) static PLAIN_GROUP: [Entry; 1] = entries!(; "inherits" Names);

pub(crate) static SEQUENCE: [Entry; 1] = entries!("sequence" Sequence;);

pub(crate) static DEFINITION: [Entry; 5] = entries!(
    ; "attributes" Attributes, "compose" Compose, "rule" Rule, "single" Flag, "message" Text
);

pub(crate) static ATTRIBUTE: [Entry; 2] = entries!("kind" AttributeKind; "default" Value);

pub(crate) static COMPOSING: [Entry; 4] =
    entries!("constraint" Text; "with" With, "override" Override, "message" Text);

pub(crate) static PLACE: [Entry; 4] =
    entries!("type" Held; "constraints" Uses, "valid" Flag, "convert" Convert);

pub(crate) static REFERENCE: [Entry; 1] = entries!("ref" Text;);

pub(crate) static LIST: [Entry; 1] = entries!("list" Place;);

pub(crate) static OPTIONAL: [Entry; 1] = entries!("optional" Place;);

pub(crate) static MAP: [Entry; 2] = entries!("map" Place; "keys" Uses);

pub(crate) static USE: [Entry; 4] =
    entries!("constraint" Text; "with" With, "groups" Names, "message" Text);

pub(crate) static PUT: [Entry; 4] =
    entries!("do" CommandName, "id" Id, "form" Text, "bundle" Bundle;);

pub(crate) static SET: [Entry; 5] =
    entries!("do" CommandName, "id" Id, "object" Text, "field" Text, "value" Any;);

/// Of a remove and of a get.
pub(crate) static ID: [Entry; 2] = entries!("do" CommandName, "id" Id;);

pub(crate) static BATCH: [Entry; 2] = entries!("do" CommandName, "parts" Parts;);

pub(crate) static CHECK: [Entry; 3] = entries!("do" CommandName, "id" Id; "groups" AskedGroups);

pub(crate) static CHECK_FIELD: [Entry; 5] =
    entries!("do" CommandName, "id" Id, "object" Text, "field" Text; "groups" AskedGroups);

pub(crate) static CHECK_VALUE: [Entry; 5] =
    entries!("do" CommandName, "type" Text, "field" Text, "value" Any; "groups" AskedGroups);

pub(crate) static LISTING: [Entry; 4] =
    entries!("do" CommandName, "form" Text; "after" Id, "limit" Limit);

pub(crate) static REDECLARE: [Entry; 2] = entries!("do" CommandName, "text" Text;);

/// An object whose first member is `do` and which may have all that any command has.
macro_rules! unnamed {
    ($form:ident) => {
        entries!(
            "do" $form;
            "id" Any, "form" Any, "bundle" Any, "object" Any, "field" Any, "value" Any, "parts" Any,
            "groups" Any, "type" Any, "after" Any, "limit" Any, "text" Any
        )
    };
}

/// Of what has no command's name.
pub(crate) static UNNAMED_COMMAND: [Entry; 13] = unnamed!(CommandName);

/// Of what has no part's name.
pub(crate) static UNNAMED_PART: [Entry; 13] = unnamed!(PartName);

pub(crate) static BUNDLE: [Entry; 2] = entries!("root" Text, "objects" Objects;);

pub(crate) static OBJECT: [Entry; 2] = entries!("type" Text; "fields" Given);
