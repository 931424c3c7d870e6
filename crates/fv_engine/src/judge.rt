//! Judging without records: for those who keep their own.
ghost use Rattle.std.specs.Prelude.{◌≡◌, ◌≢◌, Ok, Err, IfOk, IfErr};
ghost use Rattle.fv_datum.specs.Moments.{IsMoment};
ghost use Rattle.fv_declare_judging.specs.Declares.{Declares};
ghost use Rattle.fv_engine_machine.specs.Judges.{Judges};

use fv_declare::DeclFault;
use fv_engine_lines::{LIMIT, Responder};
use fv_engine_machine::{SharedRules, judge_line, read_rulebook};
use fv_engine_reply::Reply;
use fv_local::Rulebook;
use fv_registry::RuleSet;
use std::alloc::Global;

/// A judge of command lines: declarations with the rules that they use, and no record. It answers each
/// line as a service that has no record would, and keeps nothing of it, so that any number of judges
/// may stand before whatever keeps the records.
#[derive(Drop)]
pub struct LineJudge<R: RuleSet> {
    rules: SharedRules<R>,
    book: Rulebook<SharedRules<R>>,
}

impl<R: RuleSet + Drop> LineJudge<R> {
    /// The judge by the declarations of a text, where these rules are there. Refused as `read_schema`.
    pub fn new(alloc: Global, rules: R, declarations: &[u8]) -> Result<LineJudge<R>, DeclFault>
        requires { R.means rules }
        ensures rules { IfOk result (λ j. j.rules ≡ rules) }
        ensures declared { IfOk result (λ j. Declares (R.known rules) declarations.now (Ok j.book)) }
        ensures refused { IfErr result (λ f. f ≢ DeclFault.Memory → Declares (R.known rules) declarations.now (Err f)) }
    {
        let rules = SharedRules::new(alloc, rules)?;
        let book = read_rulebook(alloc, &rules, declarations)?;
        Ok(LineJudge { rules, book })
    }

    /// The reply to a line at a moment, in whole seconds since 1970-01-01T00:00:00Z: that of a service
    /// that has no record, whatever the line would leave of it. A put, set, remove or batch is judged by
    /// its own parts; a get, a check and a checkfield have no record; a redeclare is answered and changes
    /// nothing. Want of memory is told as such, and no store is asked.
    pub fn judge(&self, alloc: Global, line: &[u8], now: i64) -> Reply
        requires { IsMoment now }
        ensures { Judges (R.known self.now.rules) R.meaning self.now.book line.now now result }
    {
        if line.len() > LIMIT {
            return Reply::line_too_long();
        }
        judge_line(alloc, &self.rules, &self.book, line, now)
    }
}

impl<R: RuleSet + Drop> Responder for LineJudge<R> {
    type Reply = Reply;

    // Nothing is kept for the next line.
    ghost step = { λ old line moment text new. (new ≡ old)
        × Judges (R.known old.rules) R.meaning old.book line moment text };

    fn answer_line(&mut self, alloc: Global, line: &[u8], now: i64) -> Reply {
        self.judge(alloc, line, now)
    }

    fn answer_long(&mut self, _now: i64) -> Reply {
        Reply::line_too_long()
    }
}
