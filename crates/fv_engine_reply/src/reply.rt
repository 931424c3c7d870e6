ghost use Rattle.std.specs.Prelude.{◌≡◌, ◌⊎◌, Some, IfOk, IsSome, MatchResult, string_bytes};
ghost use Rattle.json.specs.Json.{document};
ghost use Rattle.serde_json.specs.Read.{read};
ghost use Rattle.serde_json.specs.Written.{compact_text};
ghost use Rattle.fv_bundle.specs.Bundles.{Bundled};
ghost use Rattle.fv_model.specs.Writing.{bundle_json};
ghost use Rattle.fv_engine_lines.specs.Lines.{ended, IsOpen};
ghost use Rattle.fv_engine_reply.specs.Answers.{done, redeclared, refused, shown};
ghost use Rattle.fv_engine_reply.specs.AnswerView.{answer_view};
ghost use Rattle.fv_engine_reply.specs.Content.{front, content_line};
ghost use Rattle.fv_engine_reply.specs.Texts.{answer_text, Tells};

use crate::answer::{Answer, Done, Refusal};
use crate::texts::{
    bundle_refused, ids_listed, is_json_line, listing, misdeclared, part_refused, record_shown,
    unfit, violated,
};
use fv_engine_lines::Text;
use std::alloc::{AllocError, Global};
use std::marker::Model;

// The lines that are there without memory.
const LINE_TOO_LONG: &str = "{\"error\":\"C1\",\"name\":\"LineTooLong\"}\n";

const NOT_JSON: &str = "{\"error\":\"C2\",\"name\":\"NotJson\"}\n";

const SHAPE: &str = "{\"error\":\"C3\",\"name\":\"Shape\"}\n";

const UNKNOWN_FORM: &str = "{\"error\":\"C4\",\"name\":\"UnknownForm\"}\n";

const NO_RECORD: &str = "{\"error\":\"C6\",\"name\":\"NoRecord\"}\n";

const UNKNOWN_GROUP: &str = "{\"error\":\"C7\",\"name\":\"UnknownGroup\"}\n";

const NO_SUCH_FIELD: &str = "{\"error\":\"C8\",\"name\":\"NoSuchField\"}\n";

const TOO_MANY_VISITS: &str = "{\"error\":\"C9\",\"name\":\"TooManyVisits\"}\n";

const STORE: &str = "{\"error\":\"C11\",\"name\":\"Store\"}\n";

const MEMORY: &str = "{\"error\":\"C12\",\"name\":\"Memory\"}\n";

const PUT: &str = "{\"ok\":\"put\"}\n";

const SET: &str = "{\"ok\":\"set\"}\n";

const REMOVE: &str = "{\"ok\":\"remove\"}\n";

const BATCH: &str = "{\"ok\":\"batch\"}\n";

const REDECLARE: &str = "{\"ok\":\"redeclare\"}\n";

/// The line that answers a command.
#[derive(Drop)]
pub struct Reply {
    content: Content,
    ghost ends: { content_line content ≡ ended (front (content_line content)) },
}

/// A line with its end: one that is there without memory, or one that was made.
#[derive(Drop)]
enum Content {
    Fixed(&'static str),
    Made(String),
}

impl Model for Reply {
    ghost use Rattle.std.specs.Prelude.{ℕ, List};
    ghost use Rattle.fv_engine_reply.specs.Content.{front, content_line};

    ghost Value = { List ℕ };

    ghost view = { λ r. front (content_line r.content) };
}

impl Reply {
    /// The reply of a line with its end.
    fn fixed(line: &'static str) -> Reply
        requires { line.now ≡ ended (front line.now) }
        ensures { result ≡ front line.now }
    {
        Reply {
            content: Content::Fixed(line),
        }
    }

    /// The reply of a text.
    pub(crate) fn made(text: String) -> Result<Reply, AllocError>
        ensures { IfOk result (λ r. r ≡ string_bytes text) }
    {
        let mut line = text;
        line.push('\n')?;
        Ok(Reply {
            content: Content::Made(line),
        })
    }

    /// A reply that was made, or the refusal for want of memory.
    #[tactic(auto, unfolding(json::specs::Print::escape_byte))]
    fn or_memory(reply: Result<Reply, AllocError>) -> Reply
        ensures { MatchResult reply (λ r. result ≡ r) (λ _. result ≡ answer_text (refused Refusal.Memory)) }
    {
        match reply {
            Ok(reply) => reply,
            Err(_) => Reply::fixed(MEMORY),
        }
    }

    /// The reply that tells an answer; the refusal for want of memory where the text takes memory and
    /// an allocation was refused.
    pub fn of(alloc: Global, answer: &Answer) -> Reply
        ensures { Tells result (answer_view answer.now) }
    {
        match answer {
            Answer::Done(what) => Reply::done(*what),
            Answer::Violated { records } => Reply::or_memory(violated(alloc, records)),
            Answer::Checked { violations } => {
                Reply::or_memory(listing(alloc, "check", violations))
            }
            Answer::FieldChecked { violations } => {
                Reply::or_memory(listing(alloc, "checkfield", violations))
            }
            Answer::ValueChecked { violations } => {
                Reply::or_memory(listing(alloc, "checkvalue", violations))
            }
            Answer::Ids { ids } => Reply::or_memory(ids_listed(alloc, ids)),
            Answer::Refused(why) => Reply::refused(alloc, *why),
            Answer::PartRefused { part, why } => {
                Reply::or_memory(part_refused(alloc, *part, *why))
            }
            Answer::Redeclared => Reply::redeclared(),
            Answer::Misdeclared(fault) => Reply::or_memory(misdeclared(alloc, *fault)),
            Answer::Unfit { id, why } => Reply::or_memory(unfit(alloc, id.as_str(), *why)),
        }
    }

    /// The reply that shows the record of an id, by its form and its bundle's JSON with no space. Where
    /// that is no JSON in one line, as no record's is, the reply is that the store couldn't do it; and the
    /// refusal for want of memory where an allocation was refused.
    #[tactic(auto, unfolding(json::specs::Print::escape_byte))]
    pub fn shown(alloc: Global, id: &str, form: &str, bundle: &str) -> Reply
        ensures told { (b : Bundled) → bundle.now ≡ compact_text (bundle_json b) → read bundle.now ≡ Some (bundle_json b)
            → Tells result (shown id.now form.now b) }
        // Whatever is given as the bundle.
        ensures foreign { (IsSome (document bundle.now) → IsOpen bundle.now → ⊥)
            → (result ≡ answer_text (refused Refusal.Store)) ⊎ (result ≡ answer_text (refused Refusal.Memory)) }
        ensures line { IsOpen result }
    {
        match is_json_line(alloc, bundle) {
            Ok(true) => Reply::or_memory(record_shown(alloc, id, form, bundle)),
            Ok(false) => Reply::fixed(STORE),
            Err(_) => Reply::fixed(MEMORY),
        }
    }

    /// The reply that tells what was done. It takes no memory.
    #[tactic(auto, unfolding(json::specs::Print::escape_byte))]
    pub fn done(what: Done) -> Reply
        ensures { result ≡ answer_text (done what) }
    {
        match what {
            Done::Put => Reply::fixed(PUT),
            Done::Set => Reply::fixed(SET),
            Done::Remove => Reply::fixed(REMOVE),
            Done::Batch => Reply::fixed(BATCH),
        }
    }

    /// The reply that tells that declarations were changed. It takes no memory.
    #[tactic(auto, unfolding(json::specs::Print::escape_byte))]
    fn redeclared() -> Reply
        ensures { result ≡ answer_text redeclared }
    {
        Reply::fixed(REDECLARE)
    }

    /// The reply that tells a refusal; only that of a bundle takes memory.
    #[tactic(auto, unfolding(json::specs::Print::escape_byte))]
    pub fn refused(alloc: Global, why: Refusal) -> Reply
        ensures { Tells result (refused why) }
    {
        match why {
            Refusal::Bundle(fault) => Reply::or_memory(bundle_refused(alloc, fault)),
            Refusal::LineTooLong => Reply::fixed(LINE_TOO_LONG),
            Refusal::NotJson => Reply::fixed(NOT_JSON),
            Refusal::Shape => Reply::fixed(SHAPE),
            Refusal::UnknownForm => Reply::fixed(UNKNOWN_FORM),
            Refusal::NoRecord => Reply::fixed(NO_RECORD),
            Refusal::UnknownGroup => Reply::fixed(UNKNOWN_GROUP),
            Refusal::NoSuchField => Reply::fixed(NO_SUCH_FIELD),
            Refusal::TooManyVisits => Reply::fixed(TOO_MANY_VISITS),
            Refusal::Store => Reply::fixed(STORE),
            Refusal::Memory => Reply::fixed(MEMORY),
        }
    }

    /// The refusal of a line that is over the limit. It takes no memory.
    #[tactic(auto, unfolding(json::specs::Print::escape_byte))]
    pub fn line_too_long() -> Reply
        ensures { result ≡ answer_text (refused Refusal.LineTooLong) }
    {
        Reply::fixed(LINE_TOO_LONG)
    }

    /// The line with its end. It takes no memory.
    pub fn line(&self) -> &str
        ensures { result.now ≡ ended self.now }
    {
        match &self.content {
            Content::Fixed(line) => line,
            Content::Made(line) => line.as_str(),
        }
    }

    /// The line without its end. It takes no memory.
    pub fn text(&self) -> &str
        ensures { result.now ≡ self.now }
    {
        let line = self.line();
        line.strip_suffix('\n').unwrap_or(line)
    }
}

impl Text for Reply {
    ghost bytes = { λ r. r };

    fn line(&self) -> &str {
        self.line()
    }
}
