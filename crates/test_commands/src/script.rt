//! Commands, and what stands before the first and behind each.

/// What the questions are answered: three records, the ids of all, and a field that tells which declarations
/// are in force.
pub type Shown = &'static [&'static str];

/// The questions.
pub const QUESTIONS: &str = r#"{"do":"get","id":"r1"}
{"do":"get","id":"r2"}
{"do":"get","id":"r3"}
{"do":"list","form":"item"}
{"do":"checkvalue","type":"Item","field":"note","value":null}"#;

/// A command, its reply where nothing is in its way, and what stands behind it.
#[derive(Clone, Copy)]
pub struct Command {
    pub line: &'static str,
    pub reply: &'static str,
    pub after: Shown,
}

/// Commands that are run over an engine of these declarations.
#[derive(Clone, Copy)]
pub struct Script {
    pub declarations: &'static str,
    pub before: Shown,
    pub commands: &'static [Command],
}

impl Script {
    /// What stands when so many of the commands are made; nothing where there are fewer.
    fn stands(&self, made: usize) -> Option<Shown> {
        match made.checked_sub(1) {
            None => Some(self.before),
            Some(last) => Some(self.commands.get(last)?.after),
        }
    }

    /// Whether this is what stands when so many of the commands are made.
    pub fn is_behind(&self, made: usize, text: &str) -> bool {
        match self.stands(made) {
            Some(wanted) => shows(text, wanted),
            None => false,
        }
    }
}

/// Whether a text has these lines and no other.
fn shows(text: &str, wanted: Shown) -> bool {
    let mut lines = text.lines();
    for line in wanted {
        if lines.next() != Some(*line) {
            return false;
        }
    }
    lines.next().is_none()
}
