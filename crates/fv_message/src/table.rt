//! All messages, numbered.
ghost use Rattle.std.specs.Prelude.{◌≡◌, ◌<◌, ◌≤◌, ◌++◌, true, length, IfOk, IfSome, OnOk};
ghost use Rattle.fv_message.specs.BuiltIn.{built_in_key};
ghost use Rattle.fv_message.specs.Measured.{edges_at, AreEdgesOf, own_bytes, own_len};
ghost use Rattle.fv_message.specs.Parts.{part_pieces, part_len};
ghost use Rattle.fv_message.specs.Table.{all_messages, with_message};
ghost use Rattle.fv_message.specs.Numbers.{keys_in, number_of, text_at};
ghost use Rattle.fv_message.specs.Reading.{is_template};
ghost use Rattle.fv_message.specs.Views.{messages_view};
ghost use Rattle.fv_message.specs.Whereabouts.{name_at};

use crate::built_in::{built_in_key, built_in_texts};
use crate::template::{Part, check_template, split_part};
use indexmap::IndexMap;
use std::alloc::{AllocError, Global};
use std::marker::Model;

/// The texts of all messages by their keys: the user's, and the built-in ones whose keys the user
/// gives no text. Contracts see them in the order of their numbers.
#[derive(Drop)]
pub(crate) struct Table {
    texts: IndexMap<String, String>,
}

impl Model for Table {
    ghost use Rattle.fv_message.specs.Table.{Messages};
    ghost use Rattle.fv_message.specs.Views.{messages_view};

    ghost Value = { Messages };

    ghost view = { λ t. messages_view t.texts };
}

/// Adds the message of a built-in constraint, unless its key has a text.
fn add_built_in(
    alloc: Global,
    texts: &mut IndexMap<String, String>,
    name: &str,
    text: &str,
) -> Result<(), AllocError>
    ensures { OnOk result (messages_view texts.new ≡ with_message (messages_view texts.old) (built_in_key name.now, text.now)) }
{
    let key = built_in_key(alloc, name)?;
    if !texts.contains_key(key.as_str()) {
        texts.insert(key, String::from_str(alloc, text)?)?;
    }
    Ok(())
}

impl Table {
    /// The user's messages, and the built-in ones.
    pub(crate) fn new(alloc: Global, user: IndexMap<String, String>) -> Result<Table, AllocError>
        ensures { IfOk result (λ t. t ≡ all_messages (messages_view user)) }
    {
        let mut texts = user;
        for (name, text) in built_in_texts() {
            add_built_in(alloc, &mut texts, name, text)?;
        }
        Ok(Table { texts })
    }

    /// How many keys there are.
    pub(crate) fn count(&self) -> usize
        ensures { result ≡ length self.now }
    {
        self.texts.len()
    }

    /// The number of a key.
    pub(crate) fn number_of(&self, name: &str) -> Option<usize>
        ensures number { result ≡ number_of self.now name.now }
        ensures within { IfSome result (λ i. i < length self.now) }
    {
        self.texts.get_index_of(name)
    }

    /// The text of the key of a number; empty where there is none.
    pub(crate) fn text(&self, key: usize) -> &str
        ensures { result.now ≡ text_at self.now key }
    {
        match self.texts.get_index(key) {
            Some((_, text)) => text.as_str(),
            None => "",
        }
    }

    /// The key of a number; empty where there is none.
    pub(crate) fn name(&self, key: usize) -> &str
        ensures { result.now ≡ name_at self.now key }
    {
        match self.texts.get_index(key) {
            Some((name, _)) => name.as_str(),
            None => "",
        }
    }

    /// Adds the number of a parameter that is a key.
    fn add_key(&self, edges: &mut Vec<usize>, part: Part<'_>) -> Result<(), AllocError>
        ensures { OnOk result (edges.new.items ≡ edges.old.items ++ keys_in self.now (part_pieces part.entry)) }
    {
        let Part::Parameter(name) = part else {
            return Ok(());
        };
        if let Some(key) = self.number_of(name) {
            edges.push(key)?;
        }
        Ok(())
    }

    /// The keys that a key's text leads to, in order; the key itself where its text is no template.
    fn edges_at(&self, alloc: Global, key: usize) -> Result<Vec<usize>, AllocError>
        ensures { IfOk result (λ edges. edges.items ≡ edges_at self.now key) }
    {
        let mut edges = Vec::new(alloc);
        let mut rest = self.text(key);
        while let Some((part, behind)) = split_part(rest) {
            self.add_key(&mut edges, part)?;
            rest = behind;
        }
        if !rest.is_empty() {
            edges.clear();
            edges.push(key)?;
        }
        Ok(edges)
    }

    /// The same for each key.
    pub(crate) fn edges(&self, alloc: Global) -> Result<Vec<Vec<usize>>, AllocError>
        ensures { IfOk result (λ edges. AreEdgesOf self.now edges.items) }
    {
        let mut edges = Vec::new(alloc);
        for key in 0..self.count() {
            edges.push(self.edges_at(alloc, key)?)?;
        }
        Ok(edges)
    }

    /// How many bytes of what a part becomes, with no attributes, are none of a key's text.
    fn own_len_of(&self, part: Part<'_>) -> usize
        ensures own { result ≡ own_bytes self.now (part_pieces part.entry) }
        ensures within { result ≤ part_len part.entry }
    {
        match part {
            Part::Plain(plain) => plain.len(),
            Part::Parameter(name) if self.number_of(name).is_none() => name.len() + 2,
            Part::Parameter(_) => 0,
        }
    }

    /// How many bytes of what a key's text becomes, with no attributes, are none of another key's.
    pub(crate) fn own_len(&self, key: usize) -> usize
        ensures { is_template (text_at self.now key) ≡ true → result ≡ own_len self.now key }
    {
        let mut len = 0;
        let mut rest = self.text(key);
        while let Some((part, behind)) = split_part(rest) {
            len += self.own_len_of(part);
            rest = behind;
        }
        len
    }
}
