//! Messages by key, and the texts that templates become.
ghost use Rattle.std.specs.Prelude.{◌≡◌, ◌<◌, ◌++◌, true, length, None, is_some, IfOk, IfErr, IfSome, OnOk, MatchResult, string_bytes};
ghost use Rattle.fv_datum.specs.Attributes.{Attributes};
ghost use Rattle.fv_message.specs.Expanded.{AreExpansions};
ghost use Rattle.fv_message.specs.Evaluated.{full_pieces, full_text, key_text};
ghost use Rattle.fv_message.specs.Full.{IsTextOf};
ghost use Rattle.fv_message.specs.Judged.{AreSound, IsFault};
ghost use Rattle.fv_message.specs.Judging.{AreWhole, IsFaultOf, IsFoundAt};
ghost use Rattle.fv_message.specs.Parts.{part_pieces};
ghost use Rattle.fv_message.specs.Table.{all_messages};
ghost use Rattle.fv_message.specs.Numbers.{AreReadable};
ghost use Rattle.fv_message.specs.Reading.{is_template};
ghost use Rattle.fv_message.specs.Views.{messages_view};
ghost use Rattle.fv_message.specs.Whereabouts.{IsAt};

use crate::expanding::{Expanding, at};
use crate::expansion::Expansion;
use crate::fault::{MessageFault, MessagesAt, PlacedMessageFault};
use crate::lengths::long_key;
use crate::showing::{write_expansion, write_parameter};
use crate::table::Table;
use crate::template::{Part, split_part};
use crate::user_messages::{large_in, misspelt_in};
use fv_datum::Attrs;
use fv_graph::{order_rest, table};
use indexmap::IndexMap;
use std::alloc::{AllocError, Global};
use std::marker::Model;

/// Messages by key: the user's, and the built-in ones whose keys the user gives no text. Contracts see
/// the keys with their texts as they are written.
#[derive(Drop)]
pub struct Messages {
    keys: Table,
    expansions: Vec<Expansion>,
}

impl Model for Messages {
    ghost use Rattle.fv_message.specs.Table as spec;
    ghost use Rattle.fv_message.specs.Expanded.{AreExpansions};
    ghost use Rattle.fv_message.specs.Judged.{IsCircular};
    ghost use Rattle.fv_message.specs.Numbers.{AreNamed, AreReadable};

    ghost Value = { spec.Messages };

    ghost view = { λ m. m.keys };

    ghost invariant = { λ m. AreExpansions m.keys m.expansions.items × AreNamed m.keys × AreReadable m.keys × (IsCircular m.keys → ⊥) };
}

/// The expansions of the keys of a table. Refused by `TooLarge` where a key's text becomes too long,
/// else by `MessageSyntax` where the user's messages are misspelt, else by `MessageCycle` where the text
/// of a key leads back to it; `Memory` at any place.
fn expansions_of(
    alloc: Global,
    keys: &Table,
    misspelt: Option<MessagesAt>,
) -> Result<Vec<Expansion>, PlacedMessageFault>
    requires { misspelt ≡ None → AreReadable keys.now }
    ensures judged { MatchResult result (λ found. AreExpansions keys.now found.items × AreWhole keys.now (is_some misspelt))
        (λ e. IsFaultOf keys.now (is_some misspelt) e.fault) }
    ensures placed { IfErr result (λ e. IsFoundAt keys.now misspelt e.fault e.at) }
{
    let edges = keys.edges(alloc)?;
    let order = order_rest(alloc, &edges)?;
    if let Some(key) = long_key(alloc, keys, &edges, &order)? {
        return Err(PlacedMessageFault {
            fault: MessageFault::TooLarge,
            at: Some(MessagesAt::Full(key)),
        });
    }
    if misspelt.is_some() {
        return Err(PlacedMessageFault {
            fault: MessageFault::MessageSyntax,
            at: misspelt,
        });
    }
    if order.len() < edges.len() {
        return Err(PlacedMessageFault {
            fault: MessageFault::MessageCycle,
            at: None,
        });
    }
    let maker = Expanding { messages: keys };
    Ok(table(alloc, &maker, edges.len(), &order)?)
}

impl Messages {
    /// The user's messages by their keys, and the built-in ones.
    ///
    /// Refused by `TooLarge` for more than 1,024 messages, a text of more than 4,096 bytes as it is
    /// written, or a key whose text becomes longer than 65,536 bytes with no attributes, where it meets
    /// no cycle and no text that is no template; else by `MessageSyntax` where a text is no template or
    /// a key is no parameter's name; else by `MessageCycle` where the text of a key, of the user's or of
    /// the built-in ones, leads back to that key through parameters that are keys; `Memory` at any
    /// place.
    pub fn read(alloc: Global, user: IndexMap<String, String>) -> Result<Messages, MessageFault>
        ensures { let given = messages_view user in
            MatchResult result (λ m. (m ≡ all_messages given) × AreSound given) (IsFault given) }
    {
        match Messages::read_placed(alloc, user) {
            Ok(messages) => Ok(messages),
            Err(placed) => Err(placed.fault),
        }
    }

    /// The same messages, or the fault that `read` answers with its place: that of `TooLarge` is the messages
    /// where there are too many, else the first text that is too long, else a key whose text becomes too
    /// long; that of `MessageSyntax` is in the first message that isn't well written, its key before its text.
    /// `MessageCycle` has none: see `key_ring`.
    pub fn read_placed(
        alloc: Global,
        user: IndexMap<String, String>,
    ) -> Result<Messages, PlacedMessageFault>
        ensures judged { let given = messages_view user in
            MatchResult result (λ m. (m ≡ all_messages given) × AreSound given) (λ e. IsFault given e.fault) }
        ensures placed { IfErr result (λ e. IsAt (messages_view user) e.fault e.at) }
    {
        if let Some(at) = large_in(&user) {
            return Err(PlacedMessageFault {
                fault: MessageFault::TooLarge,
                at: Some(at),
            });
        }
        let misspelt = misspelt_in(&user);
        let keys = Table::new(alloc, user)?;
        let expansions = expansions_of(alloc, &keys, misspelt)?;
        Ok(Messages { keys, expansions })
    }

    /// The text that a template becomes; empty where the text given is none, as `check_template` tells.
    ///
    /// Plain characters stay. A parameter that is a key becomes what the key's text becomes, the user's
    /// before the built-in one; else one that is an attribute becomes its text, an integer in decimal,
    /// a text as it is, `true` or `false`, texts as `[a, b]`; else it stays with its braces. The text of
    /// an attribute isn't read again.
    pub fn text(
        &self,
        alloc: Global,
        template: &str,
        attributes: &Attrs,
    ) -> Result<String, AllocError>
        ensures { IfOk result (λ s. IsTextOf self.now attributes.now template.now (string_bytes s)) }
    {
        let mut text = String::with_capacity(alloc, template.len())?;
        if let Some(key) = self.key_alone(template) {
            write_expansion(alloc, &mut text, at(&self.expansions, key), attributes)?;
            return Ok(text);
        }
        let mut rest = template;
        while let Some((part, behind)) = split_part(rest) {
            self.write_part(alloc, &mut text, part, attributes)?;
            rest = behind;
        }
        if !rest.is_empty() {
            text.clear();
        }
        Ok(text)
    }

    /// The key that is the one parameter that a template is, as a constraint's default message is.
    fn key_alone(&self, template: &str) -> Option<usize>
        ensures within { IfSome result (λ key. key < length self.now) }
        ensures text { IfSome result (λ key. (attributes : Attributes) → full_text self.now attributes template.now ≡ key_text self.now attributes key) }
    {
        let [b'{', .., b'}'] = template.as_bytes() else {
            return None;
        };
        self.keys.number_of(&template[1..template.len() - 1])
    }

    /// Writes what a part of a template becomes.
    fn write_part(
        &self,
        alloc: Global,
        text: &mut String,
        part: Part<'_>,
        attributes: &Attrs,
    ) -> Result<(), AllocError>
        ensures { OnOk result (string_bytes text.new ≡ string_bytes text.old ++ full_pieces self.now attributes.now (part_pieces part.entry)) }
    {
        match part {
            Part::Plain(plain) => text.push_str(plain),
            Part::Parameter(name) => match self.keys.number_of(name) {
                Some(key) => write_expansion(alloc, text, at(&self.expansions, key), attributes),
                None => write_parameter(alloc, text, name, attributes),
            },
        }
    }
}
