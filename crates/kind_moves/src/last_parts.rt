use crate::frame::Frame;
use crate::last_tests::LastTests;
use crate::move_tests::{goes_on_met, opens_met};
use std::alloc::Global;
use symbol_class::part;
use tier_core::{Class, Kind, NoMemory, has_bit};

impl<'a> Frame<'a> {
    ghost use Rattle.std.specs.Prelude.{◌≡◌, ◌+◌, ◌≤◌, [], ◌∷◌, IfOk, IsTrue, length};
    ghost use Rattle.tier_core.specs.Classes.{sets_of};
    ghost use Rattle.tier_core.specs.Filled.{is_filled};
    ghost use Rattle.symbol_class.specs.Parts.{ArePartedBy};
    ghost use Rattle.kind_moves.specs.Frames.{tiers_in, constraints_in, stretches_in, FitsFrame};
    ghost use Rattle.kind_moves.specs.LastMoves.{tested, AreLastTests};

    /// The tests of the last of the first `stage` constraints at a kind, if it is a stretch
    /// implication. `before` is the stage before.
    pub fn last_tests(&self, before: u32, stage: u32, kind: &Kind) -> LastTests
        requires next { before + 1 ≡ stage }
        requires stage { stage ≤ length (constraints_in self.now) }
        requires fits { FitsFrame self.now stage kind.now }
        requires phase { length (stretches_in self.now stage)
            ≡ length (stretches_in self.now before) + 1 }
        ensures { AreLastTests self.now before stage kind.now result }
    {
        let width = self.grammar.tiers.kinds.len() as u32;
        let number = before as usize;
        let constraints = self.grammar.constraints.as_slice();
        let bit = self.stretch_count(before);
        let was_met = has_bit(kind.met, bit);
        let last = &constraints[number];
        let begun = opens_met(width, last);
        let met = goes_on_met(width, last, was_met);
        let cost = self.cost_test(stage, stage, kind);
        LastTests {
            bit,
            begun,
            met,
            cost,
        }
    }

    /// Parts a class by the tests of the last constraint at a kind: all columns of a part pass the
    /// test of the phase alike, and cost the same. No part is empty, and each column of the class is
    /// in exactly one. A class whose columns all lead to one kind at the stage before is parted so by
    /// where they lead, too. It fails only if memory runs out.
    pub fn last_parts(
        &self,
        alloc: Global,
        tests: &LastTests,
        class: &Class,
    ) -> Result<Vec<Class>, NoMemory>
        requires met { length (sets_of tests.now.met.within) ≡ (tiers_in self.now).width }
        requires cost { length (sets_of tests.now.cost.within) ≡ (tiers_in self.now).width }
        requires width { length (sets_of class.now) ≡ (tiers_in self.now).width }
        requires filled { IsTrue (is_filled class.now) }
        ensures { IfOk result (λ parts. ArePartedBy (tiers_in self.now).width (tested tests.now)
            (class.now ∷ []) parts.items) }
    {
        let Ok(whole) = Vec::from_slice(alloc, &[*class]) else {
            return Err(NoMemory);
        };
        let moved = part(alloc, whole, &tests.met)?;
        let parts = part(alloc, moved, &tests.cost)?;
        Ok(parts)
    }
}
