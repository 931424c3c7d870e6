//! Templates, read part by part.
ghost use Rattle.std.specs.Prelude.{◌≡◌, ◌↔◌, ◌∷◌, true, not, IsTrue};
ghost use Rattle.std.specs.List.{prefix_len, list_all};
ghost use Rattle.fv_message.specs.Judged.{fits};
ghost use Rattle.fv_message.specs.Parts.{BeginsWith, FirstPart};
ghost use Rattle.fv_message.specs.Template.{begins, in_name, is_special, is_parameter_name, stands_plain, IsTemplate};
ghost use Rattle.fv_message.specs.Reading.{begins_plain};
ghost use Rattle.fv_message.specs.declared.template.Part.TheVariants.{Plain};

/// The most bytes of a template, as it is written.
const MOST_BYTES: usize = 4096;

/// A part of a template: plain text, or a parameter by its name.
#[derive(Clone, Copy)]
pub(crate) enum Part<'a> {
    Plain(&'a str),
    Parameter(&'a str),
}

/// Whether a backslash before a byte makes it plain.
fn is_special(byte: u8) -> bool
    ensures { result ≡ is_special byte }
{
    matches!(byte, b'{' | b'}' | b'\\' | b'$')
}

/// Whether all bytes may stand in a parameter's name.
fn are_in_name(bytes: &[u8]) -> bool
    ensures { result ≡ list_all in_name bytes.now }
{
    bytes.iter().all(|b| !matches!(*b, b'{' | b'}' | b'\\'))
}

/// Whether a text is a parameter's name: one or more characters other than braces and backslashes.
pub(crate) fn is_parameter_name(name: &str) -> bool
    ensures { result ≡ is_parameter_name name.now }
{
    !name.is_empty() && are_in_name(name.as_bytes())
}

/// How many of a text's first bytes are plain whatever stands around them.
fn plain_len(text: &[u8]) -> usize
    ensures { result ≡ prefix_len (λ b. not (is_special b)) text.now }
{
    text.iter().take_while(|b| !is_special(**b)).count()
}

/// The parameter that a template begins with, from what stands behind its opening brace, and what
/// stands behind the parameter.
fn split_parameter(behind: &str) -> Option<(Part<'_>, &str)>
    // 123 is `{`.
    ensures { FirstPart (123 ∷ behind.now) result }
{
    let (name, rest) = behind.split_once('}')?;
    if !is_parameter_name(name) {
        return None;
    }
    Some((Part::Parameter(name), rest))
}

/// Whether a text begins with a special byte.
fn begins_special(text: &[u8]) -> bool
    ensures { result ≡ begins is_special text.now }
{
    match text {
        [first, ..] => is_special(*first),
        [] => false,
    }
}

/// Whether a byte is plain as it stands, in front of what follows.
fn stands_plain(byte: u8, rest: &[u8]) -> bool
    ensures { result ≡ stands_plain byte rest.now }
{
    match byte {
        b'{' | b'}' => false,
        b'\\' => !begins_special(rest),
        b'$' => !matches!(rest, [b'{', ..]),
        _ => true,
    }
}

/// The plain text that a template begins with, from its first byte on, and what stands behind it.
fn split_plain(template: &str) -> (&str, &str)
    requires { begins_plain template.now ≡ true }
    ensures { BeginsWith template.now (Plain result.0) result.1.now }
{
    template.split_at(1 + plain_len(&template.as_bytes()[1..]))
}

/// The part that a template begins with, and what stands behind it: none where the template is empty,
/// or isn't one from its first part on.
pub(crate) fn split_part(template: &str) -> Option<(Part<'_>, &str)>
    ensures { FirstPart template.now result }
{
    let [first, rest @ ..] = template.as_bytes() else {
        return None;
    };
    if *first == b'{' {
        return split_parameter(&template[1..]);
    }
    if *first == b'\\' && begins_special(rest) {
        return Some((Part::Plain(&template[1..2]), &template[2..]));
    }
    if !stands_plain(*first, rest) {
        return None;
    }
    let (plain, rest) = split_plain(template);
    Some((Part::Plain(plain), rest))
}

/// Whether a text is a template.
///
/// A template has plain characters and parameters `{name}`, a name being one or more characters other
/// than braces and backslashes. `\{`, `\}`, `\\` and `\$` are the plain character, and another
/// backslash is itself plain. A text with a brace that is neither escaped nor part of a parameter, or
/// with a `$` that isn't escaped in front of an opening brace, is none.
pub fn check_template(template: &str) -> bool
    ensures { IsTrue result ↔ IsTemplate template.now }
{
    let mut rest = template;
    while let Some((_, behind)) = split_part(rest) {
        rest = behind;
    }
    rest.is_empty()
}

/// Whether a template is short enough: at most 4,096 bytes, as it is written.
pub fn template_fits(template: &str) -> bool
    ensures { result ≡ fits template.now }
{
    template.len() <= MOST_BYTES
}
