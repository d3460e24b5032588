ghost use Rattle.std.specs.Prelude.{ℕ, MatchOption};
ghost use Rattle.command_line.specs.Commands.{IsBudget};
ghost use Rattle.command_line.specs.Words.{words_of};

use crate::number::read_number;

/// The budget if the words do not give one.
const DEFAULT: u32 = 20_000;

/// The greatest budget.
const MOST: u32 = 65_536;

/// The budget that the last words of a command give, or `None` if there is more than one word, or
/// one that is not a budget.
pub(crate) fn budget_of(words: &[String]) -> Option<u32>
    ensures { MatchOption result ((budget : ℕ) → ¬ IsBudget (words_of words.now) budget)
        (IsBudget (words_of words.now)) }
{
    match words {
        [] => Some(DEFAULT),
        [word] => read_number(word.as_str(), MOST),
        _ => None,
    }
}
