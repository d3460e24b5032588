ghost use Rattle.std.specs.Prelude.{◌≡◌, ◌≢◌, ◌≤◌, IfOk, IfErr, length};
ghost use Rattle.tier_core.specs.Tables.{tiers_of_table};
ghost use Rattle.timeline_text.specs.Texts.{IsTextOf};
ghost use Rattle.timeline_text.specs.Causes.{IsCause};
ghost use Rattle.comprehend.specs.Surfaces.{IsSurface};

use grammar_reader::Grammar;
use std::alloc::Global;
use tier_core::{TierTable, Timeline};
use timeline_text::{FormErr, read_timeline};

/// How many columns a surface may have.
const SURFACE_LIMIT: usize = 64;

/// How many tiers are overt.
fn overt_count(tiers: &TierTable) -> usize
    ensures value { result ≡ length (tiers_of_table tiers.now).overt }
    ensures few { result ≤ 12 }
{
    tiers.kinds.iter().filter(|kind| kind.is_overt()).count()
}

/// Reads the word of a surface: the text of a timeline over the overt tiers. What is read is well
/// formed, reduced, and of at most 64 columns.
///
/// A word is refused for the causes of [`read_timeline`]; the first that occurs is the error.
/// `NoMemory` may occur in place of any answer.
pub fn read_surface(alloc: Global, grammar: &Grammar, word: &[u8]) -> Result<Timeline, FormErr>
    ensures ok { IfOk result
        (IsTextOf (length (tiers_of_table grammar.now.tiers).overt) 64 word.now) }
    ensures surface { IfOk result (IsSurface (tiers_of_table grammar.now.tiers)) }
    ensures short { IfOk result (λ surface. length surface ≤ 64) }
    ensures err { IfErr result
        (λ cause. cause ≢ FormErr.NoMemory
        → IsCause (length (tiers_of_table grammar.now.tiers).overt) 64 word.now cause) }
{
    let overt = overt_count(&grammar.tiers) as u32;
    read_timeline(alloc, overt, SURFACE_LIMIT, word)
}
