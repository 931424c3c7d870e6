//! Warnings of constraints where they are used: of rules whose attributes name no fields, of patterns that take more
//! than they seem to, and of parameters in messages.
use crate::warning::Warned;
use fv_builtin::kind_of_attribute;
use fv_bundle::{TypeId, Types, use_in};
use fv_constraint_tree::{Node, Test};
use fv_datum::{Attribute, Attrs, Kind};
use fv_declare_draft::MessageDraft;
use fv_declare_schema::{Placed, Schema};
use fv_explain_faults::{
    ATTRIBUTES, Named, Told, Who, Written, built_in_key, find_message, kind_word, reported, say,
};
use fv_registry::RuleSet;
use indexmap::IndexSet;
use std::alloc::Global;

/// What a template leads to, and the texts that it leads to.
#[derive(Drop)]
struct Led<'a> {
    user: &'a [MessageDraft<'a>],
    attributes: &'a Attrs,
    /// The messages of the user, by their numbers.
    pub(crate) messages: IndexSet<usize>,
    /// The parameters that are neither keys nor attributes.
    pub(crate) left: IndexSet<&'a str>,
}

impl<'a> Led<'a> {
    /// Goes over a parameter that is no key of a built-in message.
    fn add_plain(&mut self, name: &'a str) -> Written {
        if let Some(number) = find_message(self.user, name) {
            self.messages.insert(number)?;
        } else if self.attributes.find(name).is_none() {
            self.left.insert(name)?;
        }
        Ok(())
    }

    /// Goes over a parameter.
    fn add(&mut self, name: &'a str) -> Written {
        match built_in_key(name) {
            Some(which) if find_message(self.user, name).is_none() => {
                for name in ATTRIBUTES {
                    if kind_of_attribute(which, name).is_some() {
                        self.add_plain(name)?;
                    }
                }
                Ok(())
            }
            _ => self.add_plain(name),
        }
    }

    /// Goes over the parameters of a template: what stands in braces, the first of which has no backslash.
    fn add_template(&mut self, template: &'a str) -> Written {
        let mut escaped = false;
        for (at, character) in template.char_indices() {
            let inside = template.get(at..).and_then(|rest| rest.strip_prefix("{"));
            match inside.and_then(|inside| inside.split_once("}")) {
                Some((name, _)) if !escaped => self.add(name)?,
                _ => {}
            }
            escaped = character == '\\' && !escaped;
        }
        Ok(())
    }
}

/// What a template of a constraint with these attributes leads to, where the user has these messages.
fn led_by<'a>(
    alloc: Global,
    user: &'a [MessageDraft<'a>],
    attributes: &'a Attrs,
    template: &'a str,
) -> Told<Led<'a>> {
    let mut led = Led {
        user,
        attributes,
        messages: IndexSet::new(alloc),
        left: IndexSet::new(alloc),
    };
    led.add_template(template)?;
    for at in 0..user.len() {
        let number = led.messages.get_index(at).copied();
        if let Some(message) = number.and_then(|number| user.get(number)) {
            led.add_template(message.template)?;
        }
    }
    Ok(led)
}

/// Adds what is wrong with an attribute that is to name a field of a kind, of its type.
fn wrong_field(
    out: &mut Warned,
    (types, owner): (&Types, TypeId),
    (who, node): (Who, &Node),
    (attribute, kind): (&str, Kind),
) -> Written {
    let Some(Attribute::Text(name)) = node.attributes.find(attribute) else {
        return say!(out; "{who} has no text {attribute} to name a field: it never refuses anything");
    };
    let (name, told) = (name.as_str(), Named(name.as_str()));
    let fields = types.fields_at(owner);
    let field = fields.and_then(|fields| use_in(fields, name));
    match field.map(|field| field.kind()) {
        Some(found) if found == kind => Ok(()),
        Some(found) => {
            let (found, wanted) = (kind_word(found), kind_word(kind));
            say!(out;
                "{who} has {attribute} {told}, a field of type {found}, not {wanted}: it never refuses anything"
            )
        }
        None => {
            let owner = types.name(owner);
            say!(out;
                "{who} has {attribute} {told}, which is no field of {owner}: it never refuses anything"
            )
        }
    }
}

/// Adds what is to be said of a constraint of a rule, on a type, whose attributes name no fields of the kind.
fn add_rule_warnings<R: RuleSet>(
    out: &mut Warned,
    rules: &R,
    owner: (&Types, TypeId),
    (who, node): (Who, &Node),
) -> Written {
    if let Test::ObjectRule(rule) = &node.test {
        for (attribute, kind) in rules.named_fields(*rule) {
            wrong_field(out, owner, (who, node), (*attribute, *kind))?;
        }
    }
    Ok(())
}

/// The class of a letter behind a backslash, with what it may be written as for ASCII alone.
fn class_of(letter: char) -> Option<(&'static str, &'static str)> {
    match letter {
        'd' => Some(("\\d", "[0-9]")),
        'w' => Some(("\\w", "[0-9A-Za-z_]")),
        's' => Some(("\\s", "[ \\t\\n\\r\\f\\v]")),
        _ => None,
    }
}

/// The first class of a regular expression that takes more than ASCII. One that turns Unicode off for a part of
/// itself isn't looked at.
fn wide_class(regexp: &str) -> Option<(&'static str, &'static str)> {
    if regexp.contains("(?-u") {
        return None;
    }
    let mut escaped = false;
    for character in regexp.chars() {
        match class_of(character) {
            Some(class) if escaped => return Some(class),
            _ => escaped = character == '\\' && !escaped,
        }
    }
    None
}

/// Adds what is to be said of a constraint that is a Pattern.
fn add_pattern(out: &mut Warned, (who, node): (Who, &Node)) -> Written {
    let Some(Attribute::Text(regexp)) = node.attributes.find("regexp") else {
        return Ok(());
    };
    match wide_class(regexp.as_str()) {
        Some((class, instead)) if node.constraint() == "Pattern" => {
            let regexp = Named(regexp.as_str());
            say!(out;
                "regexp {regexp} of {who} has {class}, which takes more than ASCII; {instead} takes ASCII alone"
            )
        }
        _ => Ok(()),
    }
}

/// Adds what is to be said of the parameters of a constraint's message, and the messages that it may show.
fn add_message(out: &mut Warned, messages: &[MessageDraft], (who, node): (Who, &Node)) -> Written {
    let led = led_by(out.alloc, messages, &node.attributes, node.message())?;
    for name in led.left.iter() {
        let name = Named(name);
        say!(out;
            "the message of {who} has the parameter {name}, which is no key of messages and no attribute: it is shown in its braces"
        )?;
    }
    for number in led.messages.iter() {
        out.shown.insert(*number)?;
    }
    Ok(())
}

/// Adds what is to be said of a use, with all that it is composed of, and the messages that they may show.
fn add_use<R: RuleSet>(
    out: &mut Warned,
    rules: &R,
    (types, messages): (&Types, &[MessageDraft]),
    placed: &Placed,
) -> Written {
    let all = reported(out.alloc, placed.occurrence())?;
    let used = all.first().map_or("", |(node, _)| node.constraint());
    for (number, (node, by)) in all.iter().enumerate() {
        let told = (Who::in_tree(used, number, node.constraint()), *node);
        add_rule_warnings(out, rules, (types, placed.type_id()), told)?;
        add_pattern(out, told)?;
        if *by == Some(number) {
            add_message(out, messages, told)?;
        }
    }
    Ok(())
}

/// Adds the warnings of all uses, at their places, and the messages that they may show.
pub(crate) fn add_uses<R: RuleSet>(
    out: &mut Warned,
    rules: &R,
    (schema, messages): (&Schema, &[MessageDraft]),
    places: &[String],
) -> Written {
    for (placed, place) in schema.occurrences().iter().zip(places) {
        out.place = place.clone()?;
        add_use(out, rules, (schema.types(), messages), placed)?;
    }
    Ok(())
}
