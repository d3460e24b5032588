ghost use Rattle.std.specs.Prelude.{◌≡◌, ◌≢◌, length, IfOk, IfErr};
ghost use Rattle.otp_tool.specs.Scored.{IsNotScored, IsScored};

use grammar_reader::Grammar;
use std::alloc::Global;
use tier_core::Timeline;
use timeline_text::{FormErr, read_timeline};

/// How many columns a timeline that is scored may have.
const SCORED_LIMIT: usize = 4096;

/// Reads a word as a timeline over all tiers of the grammar.
pub(crate) fn read_scored(
    alloc: Global,
    grammar: &Grammar,
    word: &[u8],
) -> Result<Timeline, FormErr>
    ensures ok { IfOk result (IsScored (length grammar.now.tiers.kinds.items) word.now) }
    ensures err { IfErr result (λ cause. cause ≢ FormErr.NoMemory
        → IsNotScored (length grammar.now.tiers.kinds.items) word.now cause) }
{
    let width = grammar.tiers.kinds.as_slice().len() as u32;
    read_timeline(alloc, width, SCORED_LIMIT, word)
}
