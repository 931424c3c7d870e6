//! Each of the ten commands, taken.
use crate::script::{Command, Script, Shown};

/// The demonstration's declarations.
const DECLARATIONS: &str =
    r#"{"types":{"Item":{"fields":{"count":{"type":"integer","constraints":[{"constraint":"Min","with":{"value":1}}]},"name":{"type":"text","constraints":[{"constraint":"NotNull"},{"constraint":"Size","with":{"min":1,"max":3}}]}}}},"forms":{"item":{"root":"Item"}}}"#;

const NO_RECORD: &str = r#"{"error":"C6","name":"NoRecord"}"#;

const R1: &str =
    r#"{"bundle":{"objects":{"a":{"fields":{"count":1,"name":"abc"},"type":"Item"}},"root":"a"},"form":"item","id":"r1","ok":"get"}"#;

const R1_SET: &str =
    r#"{"bundle":{"objects":{"a":{"fields":{"count":1,"name":"ab"},"type":"Item"}},"root":"a"},"form":"item","id":"r1","ok":"get"}"#;

const R2: &str =
    r#"{"bundle":{"objects":{"a":{"fields":{"count":2,"name":"x"},"type":"Item"}},"root":"a"},"form":"item","id":"r2","ok":"get"}"#;

const R3: &str =
    r#"{"bundle":{"objects":{"a":{"fields":{"name":"x"},"type":"Item"},"b":{"fields":{},"type":"Item"}},"root":"a"},"form":"item","id":"r3","ok":"get"}"#;

const R1_AND_R3: &str = r#"{"ids":["r1","r3"],"ok":"list"}"#;

/// The demonstration's declarations have no field `note`.
const WITHOUT: &str = r#"{"error":"C8","name":"NoSuchField"}"#;

const WITH: &str = r#"{"ok":"checkvalue","violations":[]}"#;

const NOTHING: Shown = &[
    NO_RECORD,
    NO_RECORD,
    NO_RECORD,
    r#"{"ids":[],"ok":"list"}"#,
    WITHOUT,
];

const ONE: Shown = &[
    R1,
    NO_RECORD,
    NO_RECORD,
    r#"{"ids":["r1"],"ok":"list"}"#,
    WITHOUT,
];

const TWO: Shown = &[R1, NO_RECORD, R3, R1_AND_R3, WITHOUT];

const SET: Shown = &[R1_SET, NO_RECORD, R3, R1_AND_R3, WITHOUT];

const BATCHED: Shown = &[
    NO_RECORD,
    R2,
    R3,
    r#"{"ids":["r2","r3"],"ok":"list"}"#,
    WITHOUT,
];

const REMOVED: Shown = &[
    NO_RECORD,
    NO_RECORD,
    R3,
    r#"{"ids":["r3"],"ok":"list"}"#,
    WITHOUT,
];

const REDECLARED: Shown = &[
    NO_RECORD,
    NO_RECORD,
    R3,
    r#"{"ids":["r3"],"ok":"list"}"#,
    WITH,
];

/// Each of the ten commands, taken, over an empty database.
pub const ALL_COMMANDS: Script = Script {
    declarations: DECLARATIONS,
    before: NOTHING,
    commands: &[
        Command {
            line: r#"{"do":"put","id":"r1","form":"item","bundle":{"root":"a","objects":{"a":{"type":"Item","fields":{"count":1,"name":"abc"}}}}}"#,
            reply: r#"{"ok":"put"}"#,
            after: ONE,
        },
        Command {
            line: r#"{"do":"put","id":"r3","form":"item","bundle":{"root":"a","objects":{"a":{"type":"Item","fields":{"name":"x"}},"b":{"type":"Item"}}}}"#,
            reply: r#"{"ok":"put"}"#,
            after: TWO,
        },
        Command {
            line: r#"{"do":"get","id":"r1"}"#,
            reply: R1,
            after: TWO,
        },
        Command {
            line: r#"{"do":"set","id":"r1","object":"a","field":"name","value":"ab"}"#,
            reply: r#"{"ok":"set"}"#,
            after: SET,
        },
        Command {
            line: r#"{"do":"list","form":"item"}"#,
            reply: R1_AND_R3,
            after: SET,
        },
        Command {
            line: r#"{"do":"check","id":"r3"}"#,
            reply: r#"{"ok":"check","violations":[]}"#,
            after: SET,
        },
        Command {
            line: r#"{"do":"checkfield","id":"r3","object":"b","field":"name"}"#,
            reply: r#"{"ok":"checkfield","violations":[{"constraint":"NotNull","message":"must not be null","occurrence":1,"path":"name","value":null}]}"#,
            after: SET,
        },
        Command {
            line: r#"{"do":"checkvalue","type":"Item","field":"count","value":0}"#,
            reply: r#"{"ok":"checkvalue","violations":[{"constraint":"Min","message":"must be greater than or equal to 1","occurrence":0,"path":"count","value":0}]}"#,
            after: SET,
        },
        Command {
            line: r#"{"do":"batch","parts":[{"do":"put","id":"r2","form":"item","bundle":{"root":"a","objects":{"a":{"type":"Item","fields":{"count":2,"name":"x"}}}}},{"do":"remove","id":"r1"}]}"#,
            reply: r#"{"ok":"batch"}"#,
            after: BATCHED,
        },
        Command {
            line: r#"{"do":"remove","id":"r2"}"#,
            reply: r#"{"ok":"remove"}"#,
            after: REMOVED,
        },
        Command {
            line: r#"{"do":"redeclare","text":"{\"types\":{\"Item\":{\"fields\":{\"count\":{\"type\":\"integer\"},\"name\":{\"type\":\"text\"},\"note\":{\"type\":\"text\"}}}},\"forms\":{\"item\":{\"root\":\"Item\"}}}"}"#,
            reply: r#"{"ok":"redeclare"}"#,
            after: REDECLARED,
        },
        Command {
            line: r#"{"do":"get","id":"r3"}"#,
            reply: R3,
            after: REDECLARED,
        },
    ],
};
