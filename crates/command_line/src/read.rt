ghost use Rattle.std.specs.Prelude.{◌∷◌, codes, MatchOption};
ghost use Rattle.command_line.specs.Commands.{IsCommand, IsNoCommand};
ghost use Rattle.command_line.specs.Seen.{command_seen};
ghost use Rattle.command_line.specs.Words.{words_of};

use crate::budget::budget_of;
use crate::command::Command;
use crate::number::read_number;

/// How many letters the form of a sample may have.
const MOST_LETTERS: u32 = 63;

/// The command that these words are, or `None` if they are not those of a command.
///
/// ```text
/// canon G
/// score G TIMELINE
/// generate G FORM [BUDGET]
/// show G FORM [BUDGET]
/// tableau G FORM ROWS [BUDGET]
/// once G FORM [BUDGET]
/// comprehend G LEXICON SURFACE [BUDGET]
/// check G ANSWER
/// sample N
/// ```
///
/// The first word is in lowercase, exactly as above. BUDGET is a decimal number from 1 to 65,536,
/// and N one from 1 to 63, with no sign and no leading zero. The other words are any texts, which may
/// be empty.
pub fn command_of(words: &[String]) -> Option<Command<'_>>
    ensures { MatchOption result (IsNoCommand (words_of words.entry.now))
        (λ c. IsCommand (words_of words.entry.now) (command_seen c)) }
{
    let [name, first, further @ ..] = words else {
        return None;
    };
    let grammar = first.as_str();
    match name.as_str() {
        "canon" => match further {
            [] => Some(Command::Canon { grammar }),
            _ => None,
        },
        "score" => match further {
            [timeline] => Some(Command::Score {
                grammar,
                timeline: timeline.as_str(),
            }),
            _ => None,
        },
        "generate" => match further {
            [form, rest @ ..] => Some(Command::Generate {
                grammar,
                form: form.as_str(),
                budget: budget_of(rest)?,
            }),
            [] => None,
        },
        "show" => match further {
            [form, rest @ ..] => Some(Command::Show {
                grammar,
                form: form.as_str(),
                budget: budget_of(rest)?,
            }),
            [] => None,
        },
        "tableau" => match further {
            [form, rows, rest @ ..] => Some(Command::Tableau {
                grammar,
                form: form.as_str(),
                rows: rows.as_str(),
                budget: budget_of(rest)?,
            }),
            _ => None,
        },
        "once" => match further {
            [form, rest @ ..] => Some(Command::Once {
                grammar,
                form: form.as_str(),
                budget: budget_of(rest)?,
            }),
            [] => None,
        },
        "comprehend" => match further {
            [lexicon, surface, rest @ ..] => Some(Command::Comprehend {
                grammar,
                lexicon: lexicon.as_str(),
                surface: surface.as_str(),
                budget: budget_of(rest)?,
            }),
            _ => None,
        },
        "check" => match further {
            [answer] => Some(Command::Check {
                grammar,
                answer: answer.as_str(),
            }),
            _ => None,
        },
        "sample" => match further {
            [] => Some(Command::Sample {
                letters: read_number(first.as_str(), MOST_LETTERS)?,
            }),
            _ => None,
        },
        _ => None,
    }
}
