ghost use Rattle.grammar_reader.specs.Values.{IsGrammar};
ghost use Rattle.grammar_reader.specs.Seen.{value_by};

use tier_core::{Constraint, TierTable};
use timeline_text::Letter;

/// Tiers in their order, letters, and constraints in ranked order, the highest first.
///
/// Each grammar is the value of some text: it is within the limits, its names are proper names and
/// unique in their set, each event's tier exists, and each letter has at least one tier and only
/// input tiers.
#[derive(Drop)]
pub struct Grammar {
    pub tiers: TierTable,
    pub letters: Vec<Letter>,
    pub constraints: Vec<Constraint>,
    pub ghost lawful: { IsGrammar (value_by tiers.names.items tiers.kinds.items
        letters.items constraints.items) },
}
