ghost use Rattle.std.specs.Prelude.{◌≡◌, ◌≢◌, ◌≤◌, length, IfOk, IfErr};
ghost use Rattle.tier_core.specs.Tables.{tiers_of_table};
ghost use Rattle.violation.specs.Candidates.{IsForm};
ghost use Rattle.form_reader.specs.Forms.{IsReadAs, IsRefusedFor, is_spelled};

use grammar_reader::Grammar;
use std::alloc::Global;
use tier_core::Timeline;
use timeline_text::{FormErr, read_spelled, read_timeline};

/// How many columns a form may have.
const FORM_LIMIT: usize = 64;

/// Whether a word begins with `=`.
fn is_spelled(word: &[u8]) -> bool
    ensures { result ≡ is_spelled word.now }
{
    !word.is_empty() && word[0] == b'='
}

/// Reads a form's word: by the letters of the grammar if it begins with `=`, and otherwise as the
/// text of a timeline over the input tiers. What is read is well formed, reduced, and of at most
/// 64 columns.
///
/// A spelled word is refused for `UnknownLetter` or `TooLong`, and any other for the causes of
/// [`read_timeline`]; the first that occurs is the error. `NoMemory` may occur in place of any
/// answer.
pub fn read_form(alloc: Global, grammar: &Grammar, word: &[u8]) -> Result<Timeline, FormErr>
    ensures ok { IfOk result
        (IsReadAs
        (length (tiers_of_table grammar.now.tiers).input) grammar.now.letters.items word.now) }
    ensures form { IfOk result (IsForm (tiers_of_table grammar.now.tiers)) }
    ensures short { IfOk result (λ form. length form ≤ 64) }
    ensures err { IfErr result
        (λ cause. cause ≢ FormErr.NoMemory
        → IsRefusedFor
        (length
        (tiers_of_table grammar.now.tiers).input) grammar.now.letters.items word.now cause) }
{
    let inputs = grammar.tiers.input_count() as u32;
    if is_spelled(word) {
        read_spelled(alloc, &grammar.letters, inputs, word)
    } else {
        read_timeline(alloc, inputs, FORM_LIMIT, word)
    }
}
