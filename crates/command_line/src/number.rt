ghost use Rattle.std.specs.Prelude.{◌≡◌, ◌≤◌, ◌↔◌, ℕ, IsTrue, MatchOption};
ghost use Rattle.std.specs.Fmt.{decimal};
ghost use Rattle.command_line.specs.Commands.{IsNumber};

use itoa::Buffer;

/// Whether a number is from 1 to the greatest that is allowed.
fn is_allowed(number: u32, most: u32) -> bool
    ensures { IsTrue result ↔ ((1 ≤ number) × (number ≤ most)) }
{
    (1..=most).contains(&number)
}

/// Whether a word is this number in decimal, with no sign and no leading zero.
fn is_decimal(word: &str, number: u32) -> bool
    ensures { IsTrue result ↔ (word.now ≡ decimal number) }
{
    word == Buffer::new().format(number)
}

/// Whether a word gives this number, and it is allowed.
fn says(word: &str, most: u32, number: u32) -> bool
    ensures { IsTrue result ↔ IsNumber most word.now number }
{
    is_allowed(number, most) && is_decimal(word, number)
}

/// The number from 1 to `most` that a word gives, or `None` if it gives none.
pub(crate) fn read_number(word: &str, most: u32) -> Option<u32>
    requires { most ≤ 65536 }
    ensures { MatchOption result ((number : ℕ) → ¬ IsNumber most word.now number)
        (IsNumber most word.now) }
{
    match word.parse::<u32>() {
        Ok(number) => {
            if says(word, most, number) {
                Some(number)
            } else {
                None
            }
        }
        Err(_) => None,
    }
}
