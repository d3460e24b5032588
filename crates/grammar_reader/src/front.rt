ghost use Rattle.std.specs.Prelude.{◌≡◌, ℕ, ◌≤◌, length};
ghost use Rattle.std.specs.List.{prefix_len, position_or_len, list_all};
ghost use Rattle.timeline_text.specs.Bytes.{is_newline};
ghost use Rattle.grammar_reader.specs.Pieces.{is_letter, is_word_byte};
ghost use Rattle.grammar_reader.specs.Fronts.{Says, front_of, ends_line, begins_with, is_sign_byte};

/// What a source begins with.
#[derive(Clone, Copy)]
pub(crate) enum Front {
    End,
    Newline,
    /// This many bytes are spacing or a comment.
    Skip(usize),
    /// This many bytes are a token.
    Token(usize),
    Bad,
}

pub(crate) fn is_letter(b: u8) -> bool
    ensures { result ≡ is_letter b }
{
    b.is_ascii_alphabetic()
}

pub(crate) fn is_word_byte(b: u8) -> bool
    ensures { result ≡ is_word_byte b }
{
    is_letter(b) || b.is_ascii_digit() || b == b'_'
}

/// Whether all bytes may stand in a word.
pub(crate) fn is_word(text: &[u8]) -> bool
    ensures { result ≡ list_all is_word_byte text.now }
{
    text.iter().all(|b| is_word_byte(*b))
}

fn is_sign_byte(b: u8) -> bool
    ensures { result ≡ is_sign_byte b }
{
    b == b'[' || b == b']' || b == b'=' || b == b'#'
}

fn ends_line(bytes: &[u8]) -> bool
    ensures { result ≡ ends_line bytes.now }
{
    match bytes.split_first() {
        None => true,
        Some((first, _)) => *first == b'\n',
    }
}

fn begins_with(byte: u8, bytes: &[u8]) -> bool
    ensures { result ≡ begins_with byte bytes.now }
{
    match bytes.split_first() {
        None => false,
        Some((first, _)) => *first == byte,
    }
}

/// The number of bytes before the end of the line.
fn line_len(bytes: &[u8]) -> usize
    ensures len { result ≡ position_or_len is_newline bytes.now }
    ensures within { result ≤ length bytes.now }
{
    bytes
        .iter()
        .position(|b| *b == b'\n')
        .unwrap_or(bytes.len())
}

/// The number of bytes at the front that may stand in a word.
fn word_len(bytes: &[u8]) -> usize
    ensures len { result ≡ prefix_len is_word_byte bytes.now }
    ensures within { result ≤ length bytes.now }
{
    bytes
        .iter()
        .position(|b| !is_word_byte(*b))
        .unwrap_or(bytes.len())
}

fn look_at(bytes: &[u8]) -> Front
    ensures { result ≡ front_of bytes.now }
{
    let Some((first, others)) = bytes.split_first() else {
        return Front::End;
    };
    let first = *first;
    if first == b'\n' {
        Front::Newline
    } else if first == b' ' || first == b'\t' {
        Front::Skip(1)
    } else if first == b'\r' && ends_line(others) {
        Front::Skip(1)
    } else if first == b';' {
        Front::Skip(1 + line_len(others))
    } else if is_sign_byte(first) {
        Front::Token(1)
    } else if first == b'-' && begins_with(b'>', others) {
        Front::Token(2)
    } else if is_word_byte(first) {
        Front::Token(1 + word_len(others))
    } else {
        Front::Bad
    }
}

/// What a source begins with, and what follows from that about its pieces.
pub(crate) fn look(bytes: &[u8]) -> Front
    ensures { (line at : ℕ) → Says line at bytes.now result }
{
    look_at(bytes)
}
