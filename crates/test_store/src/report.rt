use anyhow::Error;
use std::alloc::Global;

/// How many transcripts there were, and those that differ.
#[derive(Drop)]
pub(crate) struct Report {
    pub(crate) transcripts: u64,
    pub(crate) wrong: u64,
    /// Each transcript that differs, with the first line that does, as it is wanted and as it was told.
    pub(crate) text: String,
}

/// The first line of a text that differs from that of another, with the other's.
fn first_difference<'a>(wanted: &'a str, told: &'a str) -> (&'a str, &'a str) {
    let mut told = told.lines();
    for line in wanted.lines() {
        let found = told.next().unwrap_or("no more");
        if found != line {
            return (line, found);
        }
    }
    ("no more", told.next().unwrap_or("no more"))
}

impl Report {
    pub(crate) fn new(alloc: Global) -> Report {
        Report {
            transcripts: 0,
            wrong: 0,
            text: String::new(alloc),
        }
    }

    /// Counts a transcript of a title, and keeps it where what was told isn't what is wanted.
    pub(crate) fn compare(&mut self, title: &str, wanted: &str, told: &str) -> Result<(), Error> {
        self.transcripts = self.transcripts.saturating_add(1);
        if wanted == told {
            return Ok(());
        }
        self.wrong = self.wrong.saturating_add(1);
        let (line, found) = first_difference(wanted, told);
        write!(
            self.text,
            "  in     {title}\n  wanted {line}\n  told   {found}\n"
        )?;
        Ok(())
    }
}
