ghost use Rattle.std.specs.Prelude.{◌≡◌, [], ◌∷◌, Contains, IfOk, IfErr, IfSome};
ghost use Rattle.arc_table.specs.Moves.{moves_at};
ghost use Rattle.arc_table.specs.States.{states_of};
ghost use Rattle.symbol_class.specs.Parts.{IsAlike, ArePartedBy};
ghost use Rattle.kind_moves.specs.Frames.{tiers_in};
ghost use Rattle.kind_moves.specs.LastMoves.{tested};
ghost use Rattle.stage_tables.specs.Listed.{IsTaken, AreTargets};
ghost use Rattle.stage_tables.specs.Tested.{IsLeftBefore};
ghost use Rattle.stage_tables.specs.TestedParts.{AreLastAt, AreSomeOf};
ghost use Rattle.stage_tables.specs.Exploring.{IsFoundWithin, IsFoundBeyond, IsListedOver, StaysListed, AddsTaken};

use crate::exploring::Exploring;
use crate::listed::{Listed, number_over};
use crate::stage_table::ExploreErr;
use arc_table::TableArc;
use kind_moves::LastTests;
use std::alloc::Global;
use tier_core::{Class, Kind};
use weight_law::{Count, UnitWeight};

impl Exploring<'_> {
    /// The new move on some columns of a kept one from a kind, if by the tests of the last constraint
    /// all of them do the same, and if the number of their target is at hand.
    fn move_at_hand(
        &self,
        state: u32,
        kind: &Kind,
        tests: &LastTests,
        arc: &TableArc<UnitWeight>,
        class: &Class,
        listed: &Listed,
    ) -> Option<TableArc<Count>>
        requires found { IsFoundWithin self.now listed.now }
        requires over { IsListedOver listed.now kind.now state }
        requires left { IsLeftBefore self.now }
        requires tests { AreLastAt self.now kind.now tests.now }
        requires arc { Contains (moves_at (states_of self.now.kept.now) state) arc.now }
        requires part { AreSomeOf self.now arc.now.class class.now }
        ensures class { IfSome result (λ made. made.class ≡ class.now) }
        ensures taken { IfSome result
            (λ made.
            IsTaken self.now.frame.now self.now.first self.now.stage listed.now.kinds.entries
            kind.now arc.now made) }
    {
        let is_met = tests.is_met_after(class)?;
        let cost = tests.cost_of(class)?;
        let target = number_over(listed, arc.target, tests.bit, is_met)?;
        Some(TableArc {
            class: *class,
            target,
            weight: Count(cost),
        })
    }

    /// The new move on some columns of a kept one from a kind, of all of which the tests of the last
    /// constraint say the same. Its target is listed if it is not listed yet.
    fn told_move(
        &self,
        alloc: Global,
        state: u32,
        kind: &Kind,
        tests: &LastTests,
        arc: &TableArc<UnitWeight>,
        class: &Class,
        listed: &mut Listed,
    ) -> Result<TableArc<Count>, ExploreErr>
        requires found { IsFoundWithin self.now listed.old }
        requires over { IsListedOver listed.old kind.now state }
        requires left { IsLeftBefore self.now }
        requires tests { AreLastAt self.now kind.now tests.now }
        requires arc { Contains (moves_at (states_of self.now.kept.now) state) arc.now }
        requires part { AreSomeOf self.now arc.now.class class.now }
        requires alike { IsAlike (tested tests.now) class.now }
        ensures found { IfOk result (λ _. IsFoundWithin self.now listed.new) }
        ensures stays { IfOk result (λ _. StaysListed listed.old listed.new) }
        ensures targets { IfOk result
            (λ made. AreTargets listed.old.kinds.entries listed.new.kinds.entries (made ∷ [])) }
        ensures class { IfOk result (λ made. made.class ≡ class.now) }
        ensures taken { IfOk result
            (λ made.
            IsTaken self.now.frame.now self.now.first self.now.stage listed.new.kinds.entries
            kind.now arc.now made) }
        ensures beyond { IfErr result
            (λ e. e ≡ ExploreErr.OverBudget → IsFoundBeyond self.now listed.new) }
    {
        let piece = self.frame.piece(alloc, self.stage, self.stage, kind, class);
        self.new_move(state, kind, arc, &piece, listed)
    }

    /// The new move on such columns, without a look at single ones if its target is at hand.
    fn part_move(
        &self,
        alloc: Global,
        state: u32,
        kind: &Kind,
        tests: &LastTests,
        arc: &TableArc<UnitWeight>,
        class: &Class,
        listed: &mut Listed,
    ) -> Result<TableArc<Count>, ExploreErr>
        requires found { IsFoundWithin self.now listed.old }
        requires over { IsListedOver listed.old kind.now state }
        requires left { IsLeftBefore self.now }
        requires tests { AreLastAt self.now kind.now tests.now }
        requires arc { Contains (moves_at (states_of self.now.kept.now) state) arc.now }
        requires part { AreSomeOf self.now arc.now.class class.now }
        requires alike { IsAlike (tested tests.now) class.now }
        ensures found { IfOk result (λ _. IsFoundWithin self.now listed.new) }
        ensures stays { IfOk result (λ _. StaysListed listed.old listed.new) }
        ensures targets { IfOk result
            (λ made. AreTargets listed.old.kinds.entries listed.new.kinds.entries (made ∷ [])) }
        ensures class { IfOk result (λ made. made.class ≡ class.now) }
        ensures taken { IfOk result
            (λ made.
            IsTaken self.now.frame.now self.now.first self.now.stage listed.new.kinds.entries
            kind.now arc.now made) }
        ensures beyond { IfErr result
            (λ e. e ≡ ExploreErr.OverBudget → IsFoundBeyond self.now listed.new) }
    {
        let Some(made) = self.move_at_hand(state, kind, tests, arc, class, listed) else {
            return self.told_move(alloc, state, kind, tests, arc, class, listed);
        };
        Ok(made)
    }

    /// Appends the new moves on the parts of a kept one from a kind to others.
    fn push_tested(
        &self,
        alloc: Global,
        state: u32,
        kind: &Kind,
        tests: &LastTests,
        arc: &TableArc<UnitWeight>,
        parts: &[Class],
        moves: &mut Vec<TableArc<Count>>,
        listed: &mut Listed,
    ) -> Result<(), ExploreErr>
        requires found { IsFoundWithin self.now listed.old }
        requires over { IsListedOver listed.old kind.now state }
        requires left { IsLeftBefore self.now }
        requires tests { AreLastAt self.now kind.now tests.now }
        requires arc { Contains (moves_at (states_of self.now.kept.now) state) arc.now }
        requires parts { ArePartedBy (tiers_in self.now.frame.now).width (tested tests.now)
            (arc.now.class ∷ []) parts.now }
        ensures found { IfOk result (λ _. IsFoundWithin self.now listed.new) }
        ensures stays { IfOk result (λ _. StaysListed listed.old listed.new) }
        ensures adds { IfOk result
            (λ _. AddsTaken self.now listed.old listed.new kind.now arc.now moves.old.items
            moves.new.items) }
        ensures beyond { IfErr result
            (λ e. e ≡ ExploreErr.OverBudget → IsFoundBeyond self.now listed.new) }
    {
        for part in parts {
            let made = self.part_move(alloc, state, kind, tests, arc, part, listed)?;
            if moves.push(made).is_err() {
                return Err(ExploreErr::NoMemory);
            }
        }
        Ok(())
    }

    /// Parts a kept move from a kind by the tests of the last constraint, and appends the new moves on
    /// its parts to others.
    fn take_parts(
        &self,
        alloc: Global,
        state: u32,
        kind: &Kind,
        tests: &LastTests,
        arc: &TableArc<UnitWeight>,
        moves: &mut Vec<TableArc<Count>>,
        listed: &mut Listed,
    ) -> Result<(), ExploreErr>
        requires found { IsFoundWithin self.now listed.old }
        requires over { IsListedOver listed.old kind.now state }
        requires left { IsLeftBefore self.now }
        requires tests { AreLastAt self.now kind.now tests.now }
        requires arc { Contains (moves_at (states_of self.now.kept.now) state) arc.now }
        ensures found { IfOk result (λ _. IsFoundWithin self.now listed.new) }
        ensures stays { IfOk result (λ _. StaysListed listed.old listed.new) }
        ensures adds { IfOk result
            (λ _. AddsTaken self.now listed.old listed.new kind.now arc.now moves.old.items
            moves.new.items) }
        ensures beyond { IfErr result
            (λ e. e ≡ ExploreErr.OverBudget → IsFoundBeyond self.now listed.new) }
    {
        match self.frame.last_parts(alloc, tests, &arc.class) {
            Ok(parts) => self.push_tested(alloc, state, kind, tests, arc, &parts, moves, listed),
            Err(_) => Err(ExploreErr::NoMemory),
        }
    }

    /// Appends the new moves for a kept one from a kind to others, by the tests of the last
    /// constraint.
    pub fn take_tested(
        &self,
        alloc: Global,
        state: u32,
        kind: &Kind,
        tests: &LastTests,
        arc: &TableArc<UnitWeight>,
        moves: &mut Vec<TableArc<Count>>,
        listed: &mut Listed,
    ) -> Result<(), ExploreErr>
        requires found { IsFoundWithin self.now listed.old }
        requires over { IsListedOver listed.old kind.now state }
        requires left { IsLeftBefore self.now }
        requires tests { AreLastAt self.now kind.now tests.now }
        requires arc { Contains (moves_at (states_of self.now.kept.now) state) arc.now }
        ensures found { IfOk result (λ _. IsFoundWithin self.now listed.new) }
        ensures stays { IfOk result (λ _. StaysListed listed.old listed.new) }
        ensures adds { IfOk result
            (λ _. AddsTaken self.now listed.old listed.new kind.now arc.now moves.old.items
            moves.new.items) }
        ensures beyond { IfErr result
            (λ e. e ≡ ExploreErr.OverBudget → IsFoundBeyond self.now listed.new) }
    {
        let Some(made) = self.move_at_hand(state, kind, tests, arc, &arc.class, listed) else {
            return self.take_parts(alloc, state, kind, tests, arc, moves, listed);
        };
        if moves.push(made).is_err() {
            return Err(ExploreErr::NoMemory);
        }
        Ok(())
    }
}
