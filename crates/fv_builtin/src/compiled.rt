ghost use Rattle.std.specs.Prelude.{◌≡◌, IfOk, is_some, IfSome};
ghost use Rattle.regex.specs.Patterns.{find_str};
ghost use Rattle.regex.specs.Strings.{regex_pattern, matcher_pattern};
ghost use Rattle.fv_builtin.specs.Default.{IsDefault};
ghost use Rattle.std.specs.Option.{ForSome};

use regex::{Matcher, Regex};
use std::alloc::{AllocError, Global};
use std::cell::RefCell;

/// From how many bytes on a text may leave a matcher with large tables, so that it is dropped.
const LONG: usize = 4096;

/// A pattern that is never freed, and the cell of its matcher.
#[derive(Drop)]
pub struct Compiled {
    pub(crate) regex: &'static Regex,
    cell: RefCell<Kept>,
    ghost read: { ∥ IsDefault regex.now ∥₁ },
}

impl Compiled {
    /// Leaves the pattern in memory for good.
    pub(crate) fn new(alloc: Global, regex: Regex) -> Result<Compiled, AllocError>
        requires { IsDefault regex }
        ensures { IfOk result (λ c. c.regex.now ≡ regex) }
    {
        let regex: &'static Regex = Box::leak(Box::new(alloc, regex)?);
        Ok(Compiled {
            regex,
            cell: RefCell::new(Kept::new(regex)),
        })
    }

    /// Whether the pattern matches somewhere in a text. Only the first text takes memory.
    pub(crate) fn finds(&self, alloc: Global, text: &str) -> Result<bool, AllocError>
        ensures { IfOk result (λ b. b ≡ is_some (find_str (regex_pattern self.now.regex.now) text.now 0)) }
    {
        if let Ok(mut guard) = self.cell.try_borrow_mut() {
            let kept = &mut *guard;
            if let Some(found) = kept.answer(alloc, self.regex, text)? {
                return Ok(found);
            }
        }
        finds_anew(alloc, self.regex, text)
    }
}

/// The same with a matcher of its own, where the cell is in use.
#[inline(never)]
fn finds_anew(alloc: Global, regex: &Regex, text: &str) -> Result<bool, AllocError>
    ensures { IfOk result (λ b. b ≡ is_some (find_str (regex_pattern regex.now) text.now 0)) }
{
    let mut matcher = regex.matcher(alloc)?;
    Ok(matcher.is_match(text))
}

/// What lies in the cell of a pattern: the pattern once more, and its matcher once a text was tried. A
/// clause knows nothing of what a cell holds, so the text tells for which patterns this answers.
#[derive(Drop)]
pub(crate) struct Kept {
    regex: &'static Regex,
    matcher: Option<Box<Matcher<'static>>>,
    ghost same: { ∥ ForSome matcher (λ m. matcher_pattern m.value ≡ regex_pattern regex.now) ∥₁ },
    ghost read: { ∥ IsDefault regex.now ∥₁ },
}

impl Kept {
    /// Without a matcher yet.
    pub(crate) fn new(regex: &'static Regex) -> Kept
        requires { IsDefault regex.now }
    {
        Kept {
            regex,
            matcher: None,
        }
    }

    /// The matcher, made where there is none.
    fn taken(&mut self, alloc: Global) -> Result<Box<Matcher<'static>>, AllocError>
        ensures own { IfOk result (λ m. ∥ matcher_pattern m.value ≡ regex_pattern self.old.regex.now ∥₁) }
        ensures same { self.new.regex.now ≡ self.old.regex.now }
    {
        match self.matcher.take() {
            Some(matcher) => Ok(matcher),
            None => Ok(Box::new(alloc, self.regex.matcher(alloc)?)?),
        }
    }

    fn finds(&mut self, alloc: Global, text: &str) -> Result<bool, AllocError>
        ensures { IfOk result (λ b. b ≡ is_some (find_str (regex_pattern self.old.regex.now) text.now 0)) }
    {
        let mut matcher = self.taken(alloc)?;
        let found = matcher.is_match(text);
        self.matcher = Some(matcher);
        Ok(found)
    }

    /// Whether a pattern matches somewhere in a text, if the pattern has the text of the one here.
    pub(crate) fn answer(
        &mut self,
        alloc: Global,
        regex: &Regex,
        text: &str,
    ) -> Result<Option<bool>, AllocError>
        requires { ∥ IsDefault regex.now ∥₁ }
        ensures { IfOk result (λ answer. IfSome answer (λ b. b
            ≡ is_some (find_str (regex_pattern regex.now) text.now 0))) }
    {
        if self.regex.as_str() != regex.as_str() {
            return Ok(None);
        }
        let found = self.finds(alloc, text)?;
        if text.len() > LONG {
            self.matcher = None;
        }
        Ok(Some(found))
    }
}
