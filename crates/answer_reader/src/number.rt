ghost use Rattle.std.specs.Prelude.{◌≡◌, ◌<◌, ◌≤◌, length, true, IfSome};
ghost use Rattle.std.specs.List.{list_all};
ghost use Rattle.timeline_text.specs.Bytes.{is_digit};
ghost use Rattle.answer_reader.specs.Numbers.{is_run, has_leading_zero, number_below};

fn is_digit(byte: u8) -> bool
    ensures { result ≡ is_digit byte }
{
    byte.is_ascii_digit()
}

fn are_digits(word: &[u8]) -> bool
    ensures { result ≡ list_all is_digit word.now }
{
    word.iter().all(|byte| is_digit(*byte))
}

/// Whether a word is a run of one digit or more.
pub fn is_run(word: &[u8]) -> bool
    ensures { result ≡ is_run word.now }
{
    !word.is_empty() && are_digits(word)
}

fn has_leading_zero(run: &[u8]) -> bool
    ensures { result ≡ has_leading_zero run.now }
{
    match run {
        [first, _, ..] => *first == b'0',
        _ => false,
    }
}

/// The number that a run of digits stands for. None if it has a leading zero, or is not below the
/// bound.
pub fn number_below(bound: u32, run: &[u8]) -> Option<u32>
    requires { is_run run.now ≡ true }
    ensures number { result ≡ number_below bound run.now }
    ensures below { IfSome result (λ n. n < bound) }
{
    if has_leading_zero(run) {
        return None;
    }
    let mut number: u64 = 0;
    for digit in run {
        number = number * 10 + (*digit - b'0') as u64;
        if number >= bound as u64 {
            return None;
        }
    }
    Some(number as u32)
}
