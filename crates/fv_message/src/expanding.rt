//! What the text of each key becomes but for attributes, made once from those of the keys that it leads
//! to.
ghost use Rattle.std.specs.Prelude.{◌≡◌, ◌<◌, true, length, slice_index_or, IfOk, OnOk};
ghost use Rattle.fv_datum.specs.Attributes.{Attributes};
ghost use Rattle.fv_message.specs.Expanded.{AreExpanded, expansion_text, GrowsBy};
ghost use Rattle.fv_message.specs.Evaluated.{full_pieces, full_text};
ghost use Rattle.fv_message.specs.Parts.{part_pieces};
ghost use Rattle.fv_message.specs.Numbers.{AreReadable, keys_in};
ghost use Rattle.fv_message.specs.Reading.{is_template, pieces};

use crate::expansion::Expansion;
use crate::table::Table;
use crate::template::{Part, split_part};
use fv_graph::Combine;
use std::alloc::{AllocError, Global};

/// Expands the texts of keys, each once.
#[derive(Drop)]
pub(crate) struct Expanding<'a> {
    pub(crate) messages: &'a Table,
    ghost readable: { AreReadable messages.now },
}

impl Combine for Expanding<'_> {
    type Value = Expansion;

    ghost use Rattle.fv_message.specs.Expanded.{IsExpansion};
    ghost use Rattle.fv_message.specs.Numbers.{next_keys};

    ghost next = { λ s. next_keys s.messages.now };

    ghost count = { λ s. length s.messages.now };

    ghost is_right = { λ s i made. IsExpansion s.messages.now i made };

    fn blank(&self, alloc: Global) -> Result<Expansion, AllocError> {
        Ok(Expansion::new(alloc))
    }

    fn combine(
        &self,
        alloc: Global,
        node: usize,
        table: &[Expansion],
    ) -> Result<Expansion, AllocError> {
        expand(alloc, self.messages, table, self.messages.text(node))
    }
}

/// What a template becomes but for attributes, from what the keys become that it leads to.
fn expand(
    alloc: Global,
    messages: &Table,
    expansions: &[Expansion],
    template: &str,
) -> Result<Expansion, AllocError>
    requires template { is_template template.now ≡ true }
    requires keys { AreExpanded messages.now (keys_in messages.now (pieces template.now)) expansions.now }
    ensures { IfOk result (λ e. (attributes : Attributes)
        → expansion_text attributes e ≡ full_text messages.now attributes template.now) }
{
    let mut expansion = Expansion::new(alloc);
    let mut rest = template;
    while let Some((part, behind)) = split_part(rest) {
        expand_part(alloc, messages, expansions, &mut expansion, part)?;
        rest = behind;
    }
    Ok(expansion)
}

/// Adds what a part of a template becomes but for attributes.
fn expand_part(
    alloc: Global,
    messages: &Table,
    expansions: &[Expansion],
    expansion: &mut Expansion,
    part: Part<'_>,
) -> Result<(), AllocError>
    requires { AreExpanded messages.now (keys_in messages.now (part_pieces part)) expansions.now }
    ensures { OnOk result (GrowsBy (λ attributes. full_pieces messages.now attributes (part_pieces part.entry)) expansion.old expansion.new) }
{
    match part {
        Part::Plain(plain) => expansion.push_plain(plain),
        Part::Parameter(name) => match messages.number_of(name) {
            Some(key) => expansion.append(alloc, at(expansions, key)),
            None => expansion.push_parameter(alloc, name),
        },
    }
}

/// An entry of a list that has one.
pub(crate) fn at<T>(entries: &[T], index: usize) -> &T
    requires { index < length entries.now }
    ensures { result.now ≡ slice_index_or entries.now index result.now }
{
    &entries[index]
}
