ghost use Rattle.std.specs.Prelude.{◌≡◌, ◌≤◌, length, All, IfOk, OnOk};
ghost use Rattle.tier_core.specs.Classes.{sets_of};
ghost use Rattle.kind_moves.specs.Frames.{tiers_in, FitsFrame};
ghost use Rattle.kind_moves.specs.Pieces.{IsPiece};
ghost use Rattle.stage_tables.specs.Exploring.{ArePiecesFrom};
ghost use Rattle.stage_tables.specs.Tested.{AreTestsAt};
ghost use Rattle.stage_tables.specs.PartedPieces.{AddsParts, ArePartedPieces};

use crate::exploring::Exploring;
use kind_moves::{LastTests, Piece};
use std::alloc::Global;
use tier_core::{Class, Kind, NoMemory};

impl Exploring<'_> {
    /// Appends the parts of a piece to others; all columns of a part cost the same under a
    /// constraint.
    fn push_parts(
        &self,
        alloc: Global,
        constraint: u32,
        kind: &Kind,
        piece: &Piece,
        parts: &mut Vec<Piece>,
    ) -> Result<(), NoMemory>
        requires constraint { constraint ≤ self.now.stage }
        requires fits { FitsFrame self.now.frame.now self.now.stage kind.now }
        requires width { length (sets_of piece.now.class) ≡ (tiers_in self.now.frame.now).width }
        requires piece { IsPiece self.now.frame.now self.now.stage self.now.stage
            kind.now piece.now }
        ensures { OnOk result
            (AddsParts self.now constraint kind.now piece.now parts.old.items parts.new.items) }
    {
        let finer = self
            .frame
            .pieces(alloc, self.stage, constraint, kind, &piece.class)?;
        for part in &finer {
            let pushed = parts.push(Piece {
                class: part.class,
                target: piece.target,
                cost: piece.cost,
            });
            if pushed.is_err() {
                return Err(NoMemory);
            }
        }
        Ok(())
    }

    /// Parts pieces by what their columns cost under a constraint.
    fn parts_by_cost(
        &self,
        alloc: Global,
        constraint: u32,
        kind: &Kind,
        pieces: &[Piece],
    ) -> Result<Vec<Piece>, NoMemory>
        requires constraint { constraint ≤ self.now.stage }
        requires fits { FitsFrame self.now.frame.now self.now.stage kind.now }
        requires wide { All
            (λ piece. length (sets_of piece.class) ≡ (tiers_in self.now.frame.now).width)
            pieces.now }
        requires pieces { All
            (IsPiece self.now.frame.now self.now.stage self.now.stage kind.now) pieces.now }
        ensures { IfOk result
            (λ parts. ArePartedPieces self.now constraint kind.now pieces.now parts.items) }
    {
        let mut parts = Vec::new(alloc);
        for piece in pieces {
            self.push_parts(alloc, constraint, kind, piece, &mut parts)?;
        }
        Ok(parts)
    }

    /// The columns of a class that fit a kind, in pieces that lead to one kind, and all columns of
    /// which cost the same under each constraint from the first on.
    pub fn pieces(&self, alloc: Global, kind: &Kind, class: &Class) -> Result<Vec<Piece>, NoMemory>
        requires fits { FitsFrame self.now.frame.now self.now.stage kind.now }
        requires width { length (sets_of class.now) ≡ (tiers_in self.now.frame.now).width }
        ensures { IfOk result (λ pieces. ArePiecesFrom self.now kind.now class.now pieces.items) }
    {
        if self.stage == 0 {
            let all = self.frame.all_moves(alloc, kind, class)?;
            return Ok(all);
        }
        let mut pieces = self
            .frame
            .pieces(alloc, self.stage, self.stage, kind, class)?;
        for constraint in self.first..self.stage {
            pieces = self.parts_by_cost(alloc, constraint, kind, &pieces)?;
        }
        Ok(pieces)
    }

    /// The tests of the last constraint at a kind, if it is a stretch implication and the kept table
    /// is what the stage before has left.
    pub fn tests(&self, kind: &Kind) -> Option<LastTests>
        requires fits { FitsFrame self.now.frame.now self.now.stage kind.now }
        ensures { AreTestsAt self.now kind.now result }
    {
        if self.stage <= self.before {
            return None;
        }
        if self.stage - self.before > 1 {
            return None;
        }
        if self.frame.stretch_count(self.stage) != self.frame.stretch_count(self.before) + 1 {
            return None;
        }
        Some(self.frame.last_tests(self.before, self.stage, kind))
    }
}
