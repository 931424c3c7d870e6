//! The judgement of a user's messages by themselves.
ghost use Rattle.std.specs.Prelude.{◌≡◌};
ghost use Rattle.fv_message.specs.Judging.{misspelt_in};
ghost use Rattle.fv_message.specs.Views.{messages_view};
ghost use Rattle.fv_message.specs.Whereabouts.{first_long, large_in};

use crate::fault::MessagesAt;
use crate::template::{check_template, is_parameter_name, template_fits};
use indexmap::IndexMap;

/// The most messages of a user.
const MOST_MESSAGES: usize = 1024;

/// The first of the texts that is too long for a template.
#[tactic(auto, using(fv_first::proofs::Turns::entry_turn))]
fn first_long(user: &IndexMap<String, String>) -> Option<usize>
    ensures { result ≡ first_long (messages_view user.now) }
{
    for (number, (_, text)) in user.iter().enumerate() {
        if !template_fits(text.as_str()) {
            return Some(number);
        }
    }
    None
}

/// Where there are too many messages, or else a text is too long for a template.
pub(crate) fn large_in(user: &IndexMap<String, String>) -> Option<MessagesAt>
    ensures { result ≡ large_in (messages_view user.now) }
{
    if user.len() > MOST_MESSAGES {
        return Some(MessagesAt::Messages);
    }
    if let Some(number) = first_long(user) {
        return Some(MessagesAt::Text(number));
    }
    None
}

/// Where one of the keys is no parameter's name, or its text is no template.
#[tactic(auto, using(fv_first::proofs::Turns::entry_turn))]
pub(crate) fn misspelt_in(user: &IndexMap<String, String>) -> Option<MessagesAt>
    ensures { result ≡ misspelt_in (messages_view user.now) }
{
    for (number, (key, text)) in user.iter().enumerate() {
        if !is_parameter_name(key.as_str()) {
            return Some(MessagesAt::Key(number));
        }
        if !check_template(text.as_str()) {
            return Some(MessagesAt::Text(number));
        }
    }
    None
}
