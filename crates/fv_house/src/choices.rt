ghost use Rattle.std.specs.Prelude.{◌≡◌, map, string_bytes};
ghost use Rattle.fv_datum.specs.View.{view};
ghost use Rattle.fv_house.specs.Words.{one_of, is_among};

use fv_datum::{Attribute, Attrs, Datum};

/// Takes a datum and the attributes in effect, of which `words` is a list of texts.
///
/// True for null, and for a text that is one of the words. False for any other text, for a datum of
/// another kind, and for every text where `words` is missing or is no list of texts.
pub fn one_of(datum: &Datum, attrs: &Attrs) -> bool
    ensures { result ≡ one_of (view datum.now) attrs.now }
{
    match datum {
        Datum::Null => true,
        Datum::Text(text) => match attrs.find("words") {
            Some(Attribute::Texts(words)) => is_among(text.as_str(), words),
            _ => false,
        },
        _ => false,
    }
}

/// Whether a text is one of the words, byte for byte.
#[tactic(auto, using(crate::proofs::Among::turn))]
fn is_among(text: &str, words: &[String]) -> bool
    ensures { result ≡ is_among text.now (map string_bytes words.now) }
{
    for word in words {
        if text == word.as_str() {
            return true;
        }
    }
    false
}
