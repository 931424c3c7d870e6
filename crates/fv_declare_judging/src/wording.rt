//! The messages by key, where nothing is wrong with the wording of declarations.
ghost use Rattle.std.specs.Prelude.{◌≡◌, ◌≢◌, None, Some, IfOk, IfErr, map};
ghost use Rattle.fv_declare_draft.specs.DraftViews.{draft_view};
ghost use Rattle.fv_message.specs.Table.{all_messages};
ghost use Rattle.fv_declare_draft.specs.AllUses.{uses_in};
ghost use Rattle.fv_declare_draft.specs.UseViews.{use_view};
ghost use Rattle.fv_declare_judging.specs.Wording.{IsFirstFault};
ghost use Rattle.fv_declare_judging.specs.WordingPlaces.{worded, judged_with, IsWordedAt};

use crate::placed::{PlacedWording, WordingAt};
use crate::templates::{TemplateFlaw, flawed_template};
use crate::user::user_messages;
use fv_declare_draft::{Draft, Use};
use fv_message::{MessageFault, Messages, MessagesAt, PlacedMessageFault};
use std::alloc::Global;

/// A fault of messages, where a template may be misspelt beside them.
fn worded(misspelt: Option<WordingAt>, fault: MessageFault, at: Option<MessagesAt>) -> PlacedWording
    ensures { result ≡ worded misspelt fault at }
{
    match (misspelt, fault) {
        (Some(template), MessageFault::MessageSyntax | MessageFault::MessageCycle) => {
            PlacedWording {
                fault: MessageFault::MessageSyntax,
                at: Some(template),
            }
        }
        _ => PlacedWording {
            fault,
            at: match at {
                None => None,
                Some(at) => Some(WordingAt::Messages(at)),
            },
        },
    }
}

/// What is found of messages, where a template may be misspelt beside them.
fn judged_with(
    misspelt: Option<WordingAt>,
    read: Result<Messages, PlacedMessageFault>,
) -> Result<Messages, PlacedWording>
    ensures { result ≡ judged_with misspelt read }
{
    match read {
        Err(placed) => Err(worded(misspelt, placed.fault, placed.at)),
        Ok(messages) => match misspelt {
            None => Ok(messages),
            Some(template) => Err(PlacedWording {
                fault: MessageFault::MessageSyntax,
                at: Some(template),
            }),
        },
    }
}

/// The messages of a draft by their keys, the built-in ones among them, where nothing is wrong with them
/// and with the templates of uses, of declared constraints and of those that these are composed of.
///
/// Refused by `TooLarge` where a template has more than 4,096 bytes, or as `Messages::read` is; else by
/// `MessageSyntax` where a template, a message or its key isn't well written; else by `MessageCycle`
/// where a key's text leads back to that key; `Memory` at any place.
pub(crate) fn wording(alloc: Global, draft: &Draft, uses: &[Use]) -> Result<Messages, PlacedWording>
    requires { map use_view uses.now ≡ uses_in (draft_view draft.now).types }
    ensures taken { IfOk result (λ m. (m ≡ all_messages (draft_view draft.now).messages)
        × IsFirstFault (draft_view draft.now) None) }
    ensures refused { IfErr result (λ p. p.fault ≢ MessageFault.Memory → IsFirstFault (draft_view draft.now) (Some p.fault)) }
    ensures placed { IfErr result (λ p. p.fault ≢ MessageFault.Memory → IsWordedAt (draft_view draft.now) p.fault p.at) }
{
    if let Some(at) = flawed_template(TemplateFlaw::Long, &draft.definitions, uses) {
        return Err(PlacedWording {
            fault: MessageFault::TooLarge,
            at: Some(at),
        });
    }
    let misspelt = flawed_template(TemplateFlaw::Misspelt, &draft.definitions, uses);
    let user = user_messages(alloc, &draft.messages)?;
    judged_with(misspelt, Messages::read_placed(alloc, user))
}
