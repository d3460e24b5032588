ghost use Rattle.std.specs.Prelude.{◌≡◌, ◌<◌, ◌≤◌, [], ◌∷◌, List, length, All, Contains, IfOk, IfErr};
ghost use Rattle.tier_core.specs.declared.sym.Sym.{Sym};
ghost use Rattle.tier_core.specs.Classes.{has};
ghost use Rattle.arc_table.specs.Moves.{moves_at};
ghost use Rattle.arc_table.specs.States.{states_of};
ghost use Rattle.stage_tables.specs.Listed.{IsTaken, AreTakenMoves, AreTargets};
ghost use Rattle.stage_tables.specs.Tested.{AreTestsAt, IsLeftBefore};
ghost use Rattle.stage_tables.specs.Exploring.{IsFoundWithin, IsFoundBeyond, IsListedOver, StaysListed, ArePiecesFrom, IsPieceFrom, AddsTaken};

use crate::exploring::Exploring;
use crate::listed::{Listed, number_of};
use crate::stage_table::ExploreErr;
use arc_table::TableArc;
use kind_moves::{LastTests, Piece};
use std::alloc::Global;
use tier_core::Kind;
use weight_law::{Count, UnitWeight};

impl Exploring<'_> {
    /// The new move for a piece of a kept one from a kind; its target is listed if it is not listed
    /// yet.
    pub fn new_move(
        &self,
        state: u32,
        kind: &Kind,
        arc: &TableArc<UnitWeight>,
        piece: &Piece,
        listed: &mut Listed,
    ) -> Result<TableArc<Count>, ExploreErr>
        requires found { IsFoundWithin self.now listed.old }
        requires over { IsListedOver listed.old kind.now state }
        requires arc { Contains (moves_at (states_of self.now.kept.now) state) arc.now }
        requires piece { IsPieceFrom self.now kind.now arc.now.class piece.now }
        ensures found { IfOk result (λ _. IsFoundWithin self.now listed.new) }
        ensures stays { IfOk result (λ _. StaysListed listed.old listed.new) }
        ensures targets { IfOk result
            (λ made. AreTargets listed.old.kinds.entries listed.new.kinds.entries (made ∷ [])) }
        ensures class { IfOk result (λ made. made.class ≡ piece.now.class) }
        ensures taken { IfOk result
            (λ made.
            IsTaken self.now.frame.now self.now.first self.now.stage listed.new.kinds.entries
            kind.now arc.now made) }
        ensures beyond { IfErr result
            (λ e. e ≡ ExploreErr.OverBudget → IsFoundBeyond self.now listed.new) }
    {
        let target = number_of(listed, piece.target, arc.target, self.budget)?;
        Ok(TableArc {
            class: piece.class,
            target,
            weight: Count(piece.cost),
        })
    }

    /// Appends the new moves for the pieces of a kept one from a kind to others.
    fn push_taken(
        &self,
        state: u32,
        kind: &Kind,
        arc: &TableArc<UnitWeight>,
        pieces: &[Piece],
        moves: &mut Vec<TableArc<Count>>,
        listed: &mut Listed,
    ) -> Result<(), ExploreErr>
        requires found { IsFoundWithin self.now listed.old }
        requires over { IsListedOver listed.old kind.now state }
        requires arc { Contains (moves_at (states_of self.now.kept.now) state) arc.now }
        requires pieces { ArePiecesFrom self.now kind.now arc.now.class pieces.now }
        ensures found { IfOk result (λ _. IsFoundWithin self.now listed.new) }
        ensures stays { IfOk result (λ _. StaysListed listed.old listed.new) }
        ensures adds { IfOk result
            (λ _. AddsTaken self.now listed.old listed.new kind.now arc.now moves.old.items
            moves.new.items) }
        ensures beyond { IfErr result
            (λ e. e ≡ ExploreErr.OverBudget → IsFoundBeyond self.now listed.new) }
    {
        for piece in pieces {
            let made = self.new_move(state, kind, arc, piece, listed)?;
            if moves.push(made).is_err() {
                return Err(ExploreErr::NoMemory);
            }
        }
        Ok(())
    }

    /// Appends the new moves for a kept one from a kind to others, with no tests of the last
    /// constraint.
    fn take_pieces(
        &self,
        alloc: Global,
        state: u32,
        kind: &Kind,
        arc: &TableArc<UnitWeight>,
        moves: &mut Vec<TableArc<Count>>,
        listed: &mut Listed,
    ) -> Result<(), ExploreErr>
        requires found { IsFoundWithin self.now listed.old }
        requires over { IsListedOver listed.old kind.now state }
        requires arc { Contains (moves_at (states_of self.now.kept.now) state) arc.now }
        ensures found { IfOk result (λ _. IsFoundWithin self.now listed.new) }
        ensures stays { IfOk result (λ _. StaysListed listed.old listed.new) }
        ensures adds { IfOk result
            (λ _. AddsTaken self.now listed.old listed.new kind.now arc.now moves.old.items
            moves.new.items) }
        ensures beyond { IfErr result
            (λ e. e ≡ ExploreErr.OverBudget → IsFoundBeyond self.now listed.new) }
    {
        match self.pieces(alloc, kind, &arc.class) {
            Ok(pieces) => self.push_taken(state, kind, arc, &pieces, moves, listed),
            Err(_) => Err(ExploreErr::NoMemory),
        }
    }

    /// Appends the new moves for a kept one from a kind to others.
    fn take(
        &self,
        alloc: Global,
        state: u32,
        kind: &Kind,
        tests: &Option<LastTests>,
        arc: &TableArc<UnitWeight>,
        moves: &mut Vec<TableArc<Count>>,
        listed: &mut Listed,
    ) -> Result<(), ExploreErr>
        requires found { IsFoundWithin self.now listed.old }
        requires over { IsListedOver listed.old kind.now state }
        requires left { IsLeftBefore self.now }
        requires tests { AreTestsAt self.now kind.now tests.now }
        requires arc { Contains (moves_at (states_of self.now.kept.now) state) arc.now }
        ensures found { IfOk result (λ _. IsFoundWithin self.now listed.new) }
        ensures stays { IfOk result (λ _. StaysListed listed.old listed.new) }
        ensures adds { IfOk result
            (λ _. AddsTaken self.now listed.old listed.new kind.now arc.now moves.old.items
            moves.new.items) }
        ensures beyond { IfErr result
            (λ e. e ≡ ExploreErr.OverBudget → IsFoundBeyond self.now listed.new) }
    {
        let Some(tests) = tests else {
            return self.take_pieces(alloc, state, kind, arc, moves, listed);
        };
        self.take_tested(alloc, state, kind, tests, arc, moves, listed)
    }

    /// The new moves for the kept ones from a kind.
    pub fn new_moves(
        &self,
        alloc: Global,
        state: u32,
        kind: &Kind,
        listed: &mut Listed,
    ) -> Result<Vec<TableArc<Count>>, ExploreErr>
        requires found { IsFoundWithin self.now listed.old }
        requires over { IsListedOver listed.old kind.now state }
        requires state { state < length (states_of self.now.kept.now) }
        requires left { IsLeftBefore self.now }
        ensures found { IfOk result (λ _. IsFoundWithin self.now listed.new) }
        ensures stays { IfOk result (λ _. StaysListed listed.old listed.new) }
        ensures targets { IfOk result
            (λ made. AreTargets listed.old.kinds.entries listed.new.kinds.entries made.items) }
        ensures taken { IfOk result
            (λ made.
            AreTakenMoves self.now.frame.now self.now.first self.now.stage listed.new.kinds.entries
            kind.now (moves_at (states_of self.now.kept.now) state) made.items) }
        ensures beyond { IfErr result
            (λ e. e ≡ ExploreErr.OverBudget → IsFoundBeyond self.now listed.new) }
    {
        let tests = self.tests(kind);
        let mut moves = Vec::new(alloc);
        for arc in self.kept.arcs(state) {
            self.take(alloc, state, kind, &tests, arc, &mut moves, listed)?;
        }
        Ok(moves)
    }
}
