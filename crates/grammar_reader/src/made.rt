ghost use Rattle.std.specs.Prelude.{◌≤◌, length};

use indexmap::IndexMap;
use std::alloc::Global;
use tier_core::{Constraint, TierKind};
use timeline_text::Letter;

/// The tiers so far, numbered in the order of their lines.
pub(crate) type Tiers<'a> = IndexMap<&'a [u8], TierKind>;

/// What the lines so far have made.
#[derive(Drop)]
pub(crate) struct Made<'a> {
    pub tiers: Tiers<'a>,
    pub letters: Vec<Letter>,
    pub constraints: Vec<Constraint>,
    pub ghost few_tiers: { length tiers.entries ≤ 12 },
}

impl<'a> Made<'a> {
    ghost use Rattle.std.specs.Prelude.{◌≡◌};
    ghost use Rattle.grammar_reader.specs.Reading.{nothing};
    ghost use Rattle.grammar_reader.specs.Made.{made_value};

    /// What has been made before the first line: nothing. Allocates no memory.
    pub fn new(alloc: Global) -> Made<'a>
        ensures { made_value result ≡ nothing }
    {
        Made {
            tiers: IndexMap::new(alloc),
            letters: Vec::new(alloc),
            constraints: Vec::new(alloc),
        }
    }
}
