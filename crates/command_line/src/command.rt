/// What the words of a command ask for.
///
/// `grammar`, `rows`, `lexicon` and `answer` are names of files. `form`, `timeline` and `surface` are
/// texts, as they stand in the words; whether they can be read is not yet known. `budget` is the number
/// of kinds of prefix that are allowed, from 1 to 65,536, and 20,000 if the words do not give one.
#[derive(Clone, Copy, Debug, PartialEq, Eq)]
pub enum Command<'a> {
    /// `canon G`: the canonical text of a grammar.
    Canon {
        grammar: &'a str,
    },
    /// `score G TIMELINE`: what the constraints count in a timeline.
    Score {
        grammar: &'a str,
        timeline: &'a str,
    },
    /// `generate G FORM` or `generate G FORM BUDGET`: the whole answer for a form.
    Generate {
        grammar: &'a str,
        form: &'a str,
        budget: u32,
    },
    /// `show G FORM` or `show G FORM BUDGET`: the least counts and the first optimal timeline.
    Show {
        grammar: &'a str,
        form: &'a str,
        budget: u32,
    },
    /// `tableau G FORM ROWS` or `tableau G FORM ROWS BUDGET`: candidates beside the least counts.
    Tableau {
        grammar: &'a str,
        form: &'a str,
        rows: &'a str,
        budget: u32,
    },
    /// `once G FORM` or `once G FORM BUDGET`: the answer that a single pass finds for a form.
    Once {
        grammar: &'a str,
        form: &'a str,
        budget: u32,
    },
    /// `comprehend G LEXICON SURFACE` or `comprehend G LEXICON SURFACE BUDGET`: the entries of a
    /// lexicon that have an optimal timeline with a surface.
    Comprehend {
        grammar: &'a str,
        lexicon: &'a str,
        surface: &'a str,
        budget: u32,
    },
    /// `check G ANSWER`: whether an answer is faultless, and its first fault if it is not.
    Check {
        grammar: &'a str,
        answer: &'a str,
    },
    /// `sample N`: what is found for a form of so many letters, from 1 to 63, that the number makes.
    Sample {
        letters: u32,
    },
}
