//! The templates of uses and of declared constraints.
ghost use Rattle.std.specs.Prelude.{◌≡◌, map, option_map, string_bytes};
ghost use Rattle.fv_declare_definition.specs.DefinitionViews.{definition_entry, composing_view};
ghost use Rattle.fv_declare_draft.specs.UseViews.{use_view};
ghost use Rattle.fv_first.specs.First.{first_in};
ghost use Rattle.fv_declare_judging.specs.WordingPlaces as place;

use crate::placed::WordingAt;
use fv_declare_definition::{Composing, Definition};
use fv_declare_draft::Use;
use fv_message::{check_template, template_fits};
use std::collections::BTreeMap;

/// What a text can lack as a template.
#[derive(Clone, Copy)]
pub(crate) enum TemplateFlaw {
    /// It is too long.
    Long,
    /// It is no template.
    Misspelt,
}

/// Whether a text has a flaw as a template.
fn has_flaw(flaw: TemplateFlaw, template: &str) -> bool
    ensures { result ≡ place.has_flaw flaw template.now }
{
    match flaw {
        TemplateFlaw::Long => !template_fits(template),
        TemplateFlaw::Misspelt => !check_template(template),
    }
}

/// The same of a text that may be missing.
fn is_flawed(flaw: TemplateFlaw, template: Option<&str>) -> bool
    ensures { result ≡ place.is_flawed flaw (option_map (λ t. t.now) template.entry) }
{
    match template {
        None => false,
        Some(template) => has_flaw(flaw, template),
    }
}

/// The same of a text that is owned.
fn is_flawed_text(flaw: TemplateFlaw, template: &Option<String>) -> bool
    ensures { result ≡ place.is_flawed flaw (option_map string_bytes template.now) }
{
    match template {
        None => false,
        Some(template) => has_flaw(flaw, template.as_str()),
    }
}

/// The first use with a flawed message.
#[tactic(auto, using(crate::proofs::FirstTurns::use_turn))]
fn flawed_use(flaw: TemplateFlaw, uses: &[Use]) -> Option<WordingAt>
    ensures { result ≡ place.flawed_use flaw (map use_view uses.now) }
{
    for (number, given) in uses.iter().enumerate() {
        if is_flawed(flaw, given.message) {
            return Some(WordingAt::Use(number));
        }
    }
    None
}

/// The first composing constraint with a flawed message.
#[tactic(auto, using(crate::proofs::FirstTurns::composing_turn))]
fn flawed_composing(flaw: TemplateFlaw, composing: &[Composing]) -> Option<usize>
    ensures { result ≡ place.flawed_composing flaw (map composing_view composing.now) }
{
    for (number, part) in composing.iter().enumerate() {
        if is_flawed_text(flaw, &part.message) {
            return Some(number);
        }
    }
    None
}

/// The first flawed message of declared constraints: for each its own, then those of the constraints that it is
/// composed of.
#[tactic(auto, using(fv_first::proofs::Turns::entry_turn))]
fn flawed_definition(
    flaw: TemplateFlaw,
    definitions: &BTreeMap<String, Definition>,
) -> Option<WordingAt>
    ensures { result ≡ first_in (place.flawed_definition flaw) (map definition_entry definitions.now.entries) }
{
    for (number, (_, definition)) in definitions.iter().enumerate() {
        if is_flawed_text(flaw, &definition.message) {
            return Some(WordingAt::Definition(number));
        }
        if let Some(part) = flawed_composing(flaw, &definition.composing) {
            return Some(WordingAt::Composing(number, part));
        }
    }
    None
}

/// The first template with a flaw: of uses, then of declared constraints.
pub(crate) fn flawed_template(
    flaw: TemplateFlaw,
    definitions: &BTreeMap<String, Definition>,
    uses: &[Use],
) -> Option<WordingAt>
    ensures { result ≡ place.flawed_template flaw (map use_view uses.now) (map definition_entry definitions.now.entries) }
{
    match flawed_use(flaw, uses) {
        Some(at) => Some(at),
        None => flawed_definition(flaw, definitions),
    }
}
