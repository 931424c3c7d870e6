//! Commands that change something, each by itself over the same records.
use test_commands::{ALL_COMMANDS, Command, Script, Shown};

const NO_RECORD: &str = r#"{"error":"C6","name":"NoRecord"}"#;

/// The declarations have no field `note`.
const WITHOUT: &str = r#"{"error":"C8","name":"NoSuchField"}"#;

const R1: &str =
    r#"{"bundle":{"objects":{"a":{"fields":{"count":1,"name":"one"},"type":"Item"},"b":{"fields":{},"type":"Item"}},"root":"a"},"form":"item","id":"r1","ok":"get"}"#;

const R3: &str =
    r#"{"bundle":{"objects":{"a":{"fields":{"name":"x"},"type":"Item"},"b":{"fields":{},"type":"Item"}},"root":"a"},"form":"item","id":"r3","ok":"get"}"#;

const FIRST_AND_THIRD: &str = r#"{"ids":["r1","r3"],"ok":"list"}"#;

const BEFORE: Shown = &[R1, NO_RECORD, R3, FIRST_AND_THIRD, WITHOUT];

/// Puts of a record of two objects, of which the second has no field, and of another.
const RECORDS: &[Command] = &[
    Command {
        line: r#"{"do":"put","id":"r1","form":"item","bundle":{"root":"a","objects":{"a":{"type":"Item","fields":{"count":1,"name":"one"}},"b":{"type":"Item"}}}}"#,
        reply: r#"{"ok":"put"}"#,
        after: &[
            R1,
            NO_RECORD,
            NO_RECORD,
            r#"{"ids":["r1"],"ok":"list"}"#,
            WITHOUT,
        ],
    },
    Command {
        line: r#"{"do":"put","id":"r3","form":"item","bundle":{"root":"a","objects":{"a":{"type":"Item","fields":{"name":"x"}},"b":{"type":"Item"}}}}"#,
        reply: r#"{"ok":"put"}"#,
        after: BEFORE,
    },
];

const R2: &str =
    r#"{"bundle":{"objects":{"a":{"fields":{"count":1,"name":"abc"},"type":"Item"}},"root":"a"},"form":"item","id":"r2","ok":"get"}"#;

const PUT: Command = Command {
    line: r#"{"do":"put","id":"r2","form":"item","bundle":{"root":"a","objects":{"a":{"type":"Item","fields":{"count":1,"name":"abc"}}}}}"#,
    reply: r#"{"ok":"put"}"#,
    after: &[
        R1,
        R2,
        R3,
        r#"{"ids":["r1","r2","r3"],"ok":"list"}"#,
        WITHOUT,
    ],
};

/// In the place of a record, with one object that was there and one that wasn't.
const PUT_OVER: Command = Command {
    line: r#"{"do":"put","id":"r1","form":"item","bundle":{"root":"c","objects":{"a":{"type":"Item","fields":{"name":"ab"}},"c":{"type":"Item","fields":{"name":"two"}}}}}"#,
    reply: r#"{"ok":"put"}"#,
    after: &[
        r#"{"bundle":{"objects":{"a":{"fields":{"name":"ab"},"type":"Item"},"c":{"fields":{"name":"two"},"type":"Item"}},"root":"c"},"form":"item","id":"r1","ok":"get"}"#,
        NO_RECORD,
        R3,
        FIRST_AND_THIRD,
        WITHOUT,
    ],
};

const SET: Command = Command {
    line: r#"{"do":"set","id":"r1","object":"b","field":"name","value":"new"}"#,
    reply: r#"{"ok":"set"}"#,
    after: &[
        r#"{"bundle":{"objects":{"a":{"fields":{"count":1,"name":"one"},"type":"Item"},"b":{"fields":{"name":"new"},"type":"Item"}},"root":"a"},"form":"item","id":"r1","ok":"get"}"#,
        NO_RECORD,
        R3,
        FIRST_AND_THIRD,
        WITHOUT,
    ],
};

const BATCH: Command = Command {
    line: r#"{"do":"batch","parts":[{"do":"put","id":"r2","form":"item","bundle":{"root":"a","objects":{"a":{"type":"Item","fields":{"count":1,"name":"abc"}}}}},{"do":"remove","id":"r1"}]}"#,
    reply: r#"{"ok":"batch"}"#,
    after: &[
        NO_RECORD,
        R2,
        R3,
        r#"{"ids":["r2","r3"],"ok":"list"}"#,
        WITHOUT,
    ],
};

/// A put in the place of a record, a field of another, and a record that is put and removed.
const LONG_BATCH: Command = Command {
    line: r#"{"do":"batch","parts":[{"do":"put","id":"r1","form":"item","bundle":{"root":"c","objects":{"a":{"type":"Item","fields":{"name":"ab"}},"c":{"type":"Item","fields":{"name":"two"}}}}},{"do":"set","id":"r3","object":"a","field":"count","value":5},{"do":"put","id":"r2","form":"item","bundle":{"root":"a","objects":{"a":{"type":"Item"}}}},{"do":"remove","id":"r2"}]}"#,
    reply: r#"{"ok":"batch"}"#,
    after: &[
        r#"{"bundle":{"objects":{"a":{"fields":{"name":"ab"},"type":"Item"},"c":{"fields":{"name":"two"},"type":"Item"}},"root":"c"},"form":"item","id":"r1","ok":"get"}"#,
        NO_RECORD,
        r#"{"bundle":{"objects":{"a":{"fields":{"count":5,"name":"x"},"type":"Item"},"b":{"fields":{},"type":"Item"}},"root":"a"},"form":"item","id":"r3","ok":"get"}"#,
        FIRST_AND_THIRD,
        WITHOUT,
    ],
};

const REMOVE: Command = Command {
    line: r#"{"do":"remove","id":"r1"}"#,
    reply: r#"{"ok":"remove"}"#,
    after: &[
        NO_RECORD,
        NO_RECORD,
        R3,
        r#"{"ids":["r3"],"ok":"list"}"#,
        WITHOUT,
    ],
};

/// Declarations with a field `note` and without constraints, which both records fit.
const REDECLARE: Command = Command {
    line: r#"{"do":"redeclare","text":"{\"types\":{\"Item\":{\"fields\":{\"count\":{\"type\":\"integer\"},\"name\":{\"type\":\"text\"},\"note\":{\"type\":\"text\"}}}},\"forms\":{\"item\":{\"root\":\"Item\"}}}"}"#,
    reply: r#"{"ok":"redeclare"}"#,
    after: &[
        R1,
        NO_RECORD,
        R3,
        FIRST_AND_THIRD,
        r#"{"ok":"checkvalue","violations":[]}"#,
    ],
};

/// Each by itself.
const CHANGES: [&[Command]; 7] = [
    &[PUT],
    &[PUT_OVER],
    &[SET],
    &[BATCH],
    &[LONG_BATCH],
    &[REMOVE],
    &[REDECLARE],
];

/// The puts of the records that the other commands find, over an empty database.
pub(crate) fn records() -> Script {
    Script {
        commands: RECORDS,
        ..ALL_COMMANDS
    }
}

/// Each command that changes something by itself, over those records.
pub(crate) fn changes() -> [Script; 7] {
    CHANGES.map(|commands| Script {
        before: BEFORE,
        commands,
        ..ALL_COMMANDS
    })
}
