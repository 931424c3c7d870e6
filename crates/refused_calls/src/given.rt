//! The data of the openings.

/// The demonstration's declarations with a message of parameters, groups, a sequence and a reference.
pub(crate) const DECLARATIONS: &str =
    r#"{"types":{"Item":{"fields":{"count":{"type":"integer","constraints":[{"constraint":"Min","with":{"value":1}}]},"name":{"type":"text","constraints":[{"constraint":"NotNull"},{"constraint":"Size","with":{"min":1,"max":3}}]},"next":{"type":{"ref":"Item"},"valid":true},"tag":{"type":"text","constraints":[{"constraint":"Tagged","with":{"note":"{jakarta.validation.constraints.Null.message}"},"groups":["Tags"]}]}}}},"forms":{"item":{"root":"Item"}},"groups":{"Tags":{},"Both":{"sequence":["Default","Tags"]}},"constraints":{"Tagged":{"attributes":{"note":{"kind":"text"}},"compose":[{"constraint":"NotNull"}],"single":true,"message":"{app.tag}"}},"messages":{"app.tag":"\\{{note}\\} {nobody} {jakarta.validation.constraints.NotNull.message}"}}"#;

/// Declarations of two messages, each of which leads to the other.
pub(crate) const REFUSED_DECLARATIONS: &str =
    r#"{"types":{"Item":{"fields":{"name":{"type":"text","constraints":[{"constraint":"NotNull"},{"constraint":"Size","with":{"min":1,"max":3}}]}}}},"forms":{"item":{"root":"Item"}},"messages":{"p":"{q}","q":"{p}"}}"#;

/// Puts of the records: `r1` of one object, and `r3` of that bundle.
pub(crate) const PUTS: &str =
    r#"{"do":"put","id":"r1","form":"item","bundle":{"root":"a","objects":{"a":{"type":"Item","fields":{"count":1,"name":"abc"}}}}}
{"do":"put","id":"r3","form":"item","bundle":{"root":"a","objects":{"a":{"type":"Item","fields":{"name":"x","next":"b"}},"b":{"type":"Item","fields":{"count":7,"name":"é","next":"c"}},"c":{"type":"Item","fields":{"name":"c","next":"a","tag":"t"}}}}}"#;

/// Asks for each record and the ids of all, and for the field `more`.
pub(crate) const QUESTIONS: &str = r#"{"do":"get","id":"r1"}
{"do":"get","id":"r2"}
{"do":"get","id":"r3"}
{"do":"list","form":"item"}
{"do":"checkvalue","type":"Item","field":"more","value":null}"#;

/// The tables of version 1 without their row of `about`, and the records.
pub(crate) const FIRST: &str = r#"
CREATE TABLE about (one INTEGER PRIMARY KEY CHECK (one = 1), version INTEGER NOT NULL, declarations BLOB NOT NULL);
CREATE TABLE record (id TEXT NOT NULL PRIMARY KEY, form TEXT NOT NULL, bundle TEXT NOT NULL);
INSERT INTO record VALUES ('r1', 'item', '{"objects":{"a":{"fields":{"count":1,"name":"abc"},"type":"Item"}},"root":"a"}');
INSERT INTO record VALUES ('r3', 'item', '{"objects":{"a":{"fields":{"name":"x","next":"b"},"type":"Item"},"b":{"fields":{"count":7,"name":"é","next":"c"},"type":"Item"},"c":{"fields":{"name":"c","next":"a","tag":"t"},"type":"Item"}},"root":"a"}');
"#;
