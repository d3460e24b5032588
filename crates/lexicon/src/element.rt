ghost use Rattle.std.specs.Prelude.{◌≡◌, ◌&&◌, nat_le, option_map};
ghost use Rattle.std.specs.List.{list_all};
ghost use Rattle.toml.specs.View.{view};
ghost use Rattle.lexicon.specs.Elements.{is_name_byte, is_entry_name, text_under, entry_words};

use toml::Value;

/// How many bytes the name of an entry may have.
const NAME_LIMIT: usize = 64;

/// Whether a byte may occur in a name.
fn is_name_byte(byte: u8) -> bool
    ensures { result ≡ is_name_byte byte }
{
    byte >= 32 && byte != 127
}

/// Whether a name may have so many bytes.
fn is_name_length(len: usize) -> bool
    ensures { result ≡ (nat_le 1 len && nat_le len 64) }
{
    1 <= len && len <= NAME_LIMIT
}

/// Whether each byte may occur in a name.
fn has_name_bytes(name: &[u8]) -> bool
    ensures { result ≡ list_all is_name_byte name.now }
{
    name.iter().all(|byte| is_name_byte(*byte))
}

/// Whether a text may be the name of an entry.
fn is_entry_name(name: &[u8]) -> bool
    ensures { result ≡ is_entry_name name.now }
{
    is_name_length(name.len()) && has_name_bytes(name)
}

/// The string under a key of an element.
fn text_under<'a>(element: &'a Value, key: &str) -> Option<&'a str>
    ensures { option_map (λ text. text.now) result ≡ text_under key.now (view element.now) }
{
    match element.get(key) {
        Some(value) => value.as_str(),
        None => None,
    }
}

/// What an element writes: the name of an entry, and the word of its form.
pub(crate) fn entry_words(element: &Value) -> Option<(&str, &str)>
    ensures { option_map (λ pair. (pair.0.now, pair.1.now)) result
        ≡ entry_words (view element.entry.now) }
{
    let name = text_under(element, "name")?;
    let word = text_under(element, "form")?;
    if is_entry_name(name.as_bytes()) {
        Some((name, word))
    } else {
        None
    }
}
