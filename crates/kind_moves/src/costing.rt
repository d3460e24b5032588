use crate::cost_tests::cost_test;
use crate::frame::Frame;
use symbol_class::Difference;
use tier_core::{Kind, has_bit};

impl<'a> Frame<'a> {
    ghost use Rattle.std.specs.Prelude.{◌≡◌, ◌≤◌, List, length};
    ghost use Rattle.tier_core.specs.declared.sym.Sym.{Sym};
    ghost use Rattle.tier_core.specs.Classes.{sets_of};
    ghost use Rattle.symbol_class.specs.Held.{once_if};
    ghost use Rattle.symbol_class.specs.Parts.{differs};
    ghost use Rattle.kind_moves.specs.Frames.{tiers_in, constraints_in, FitsFrame};
    ghost use Rattle.kind_moves.specs.Pieces.{cost_under};

    /// The test whether a column costs 1 from a kind under one of the first `stage` constraints,
    /// which is counted from 1 in ranked order. A column that does not pass it costs nothing.
    pub fn cost_test(&self, stage: u32, constraint: u32, kind: &Kind) -> Difference
        requires stage { stage ≤ length (constraints_in self.now) }
        requires some { 1 ≤ constraint }
        requires within { constraint ≤ stage }
        requires fits { FitsFrame self.now stage kind.now }
        ensures width { length (sets_of result.within) ≡ (tiers_in self.now).width }
        ensures columns { (column : List Sym) → length column ≡ (tiers_in self.now).width
            → cost_under self.now stage constraint kind.now column
            ≡ once_if (differs result column) }
    {
        let width = self.grammar.tiers.kinds.len() as u32;
        let number = constraint as usize - 1;
        let constraints = self.grammar.constraints.as_slice();
        let is_unmet = has_bit(kind.unmet, self.stretch_count(constraint - 1));
        let opened = self.open_at(kind);
        cost_test(width, &constraints[number], opened, is_unmet)
    }
}
