//! Laws of templates and what they become: functions that do nothing, and whose contracts a caller's
//! proof may cite.
ghost use Rattle.std.specs.Prelude.{◌≡◌, ◌↔◌, ℕ, List, [], ◌∷◌, Some, None, map};
ghost use Rattle.fv_datum.specs.Attributes.{Attributes, AttributeValue};
ghost use Rattle.fv_datum.specs.Lookup.{at_name};
ghost use Rattle.fv_graph.specs.Graph.{IsIn};
ghost use Rattle.fv_message.specs.Evaluated.{full_text};
ghost use Rattle.fv_message.specs.Expanded.{shown_pieces};
ghost use Rattle.fv_message.specs.Full.{attribute_text, Become, IsFullText};
ghost use Rattle.fv_message.specs.Judged.{IsCircular};
ghost use Rattle.fv_message.specs.Reading.{pieces_of};
ghost use Rattle.fv_message.specs.Table.{Messages};
ghost use Rattle.fv_message.specs.Template.{Piece, plain, parameter, SpellsPieces, IsTemplate, escaped};

/// A text is read as the pieces that it spells, and as no others.
pub fn pieces_are_spelled()
    ensures { (text : List ℕ) (ps : List Piece) → (pieces_of text ≡ Some ps) ↔ SpellsPieces ps text }
{}

/// A template has at most one full text, the one that the function makes; and it has it where each
/// text is a template and no key's text leads back to that key.
pub fn full_text_is_made()
    ensures one { (ms : Messages) (attributes : Attributes) (template full : List ℕ)
        → IsFullText ms attributes template full → full ≡ full_text ms attributes template }
    ensures made { (ms : Messages) (attributes : Attributes) (template : List ℕ)
        → ((m : List ℕ × List ℕ) → IsIn ms m → IsTemplate m.1) → (IsCircular ms → ⊥) → IsTemplate template
        → IsFullText ms attributes template (full_text ms attributes template) }
{}

/// A parameter that is a key becomes what the key's text becomes.
pub fn key_becomes_its_text()
    ensures { (ms : Messages) (attributes : Attributes) (name template full : List ℕ) → at_name name ms ≡ Some template
        → IsFullText ms attributes template full → Become ms attributes (parameter name ∷ []) full }
{}

/// A template without parameters becomes its own text, escapes undone, whatever the messages and the
/// attributes are; and every text has such a template.
pub fn plain_text_stays()
    ensures unescaped { (ms : Messages) (attributes : Attributes) (template text : List ℕ)
        → SpellsPieces (map plain text) template → IsFullText ms attributes template text }
    ensures escaped { (text : List ℕ) → SpellsPieces (map plain text) (escaped text) }
{}

/// A parameter that is an attribute and no key becomes the attribute's text, whatever the messages are.
/// Nothing that an attribute inserts is looked at: which pieces a template becomes depends on the
/// messages alone, and the attributes are put in at the end.
pub fn attributes_are_not_read()
    ensures inserted { (ms : Messages) (attributes : Attributes) (name : List ℕ) (value : AttributeValue)
        → at_name name ms ≡ None → at_name name attributes ≡ Some value
        → Become ms attributes (parameter name ∷ []) (attribute_text value) }
    ensures unread { (ms : Messages) (template : List ℕ) → (ps : List Piece)
        × ((attributes : Attributes) (full : List ℕ) → IsFullText ms attributes template full → full ≡ shown_pieces attributes ps) }
{}
