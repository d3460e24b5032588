ghost use Rattle.std.specs.Prelude.{◌≡◌};
ghost use Rattle.grammar_reader.specs.Statements.{is_connective};
ghost use Rattle.grammar_reader.specs.Names.{begins_with_letter, is_name, is_letter_byte};

use crate::front::{is_letter, is_word};

/// Whether a word joins events, and so is not a name.
pub(crate) fn is_connective(word: &[u8]) -> bool
    ensures { result ≡ is_connective word.now }
{
    word == b"and".as_slice() || word == b"or".as_slice()
}

fn begins_with_letter(word: &[u8]) -> bool
    ensures { result ≡ begins_with_letter word.now }
{
    match word.split_first() {
        None => false,
        Some((first, _)) => is_letter(*first),
    }
}

/// Whether a word is a name.
pub(crate) fn is_name(word: &[u8]) -> bool
    ensures { result ≡ is_name word.now }
{
    word.len() <= 32 && begins_with_letter(word) && is_word(word) && !is_connective(word)
}

/// Whether a word is a single letter or digit.
pub(crate) fn is_letter_byte(word: &[u8]) -> bool
    ensures { result ≡ is_letter_byte word.now }
{
    match word {
        [byte] => byte.is_ascii_alphabetic() || byte.is_ascii_digit(),
        _ => false,
    }
}
