use crate::frame::Frame;
use crate::parting::{parts_by_open, parts_by_phases};
use crate::piece::Piece;
use std::alloc::{AllocError, Global};
use symbol_class::{least_column, part};
use tier_core::{Class, Column, Kind, NoMemory};

impl<'a> Frame<'a> {
    ghost use Rattle.std.specs.Prelude.{◌≡◌, ◌<◌, ◌≤◌, ◌↔◌, ℕ, All, IfOk, IsTrue, List, length};
    ghost use Rattle.tier_core.specs.declared.sym.Sym.{Sym};
    ghost use Rattle.tier_core.specs.Classes.{sets_of, has};
    ghost use Rattle.tier_core.specs.Filled.{is_filled};
    ghost use Rattle.symbol_class.specs.Held.{some_has, ArePieces};
    ghost use Rattle.symbol_class.specs.Parts.{IsAlike, ArePartedBy};
    ghost use Rattle.kind_moves.specs.Frames.{tiers_in, constraints_in, FitsAt, FitsFrame};
    ghost use Rattle.kind_moves.specs.Fitting.{AreFitting, IsMovedAlike};
    ghost use Rattle.kind_moves.specs.Pieces.{cost_under, piece_classes, IsPiece};

    /// The columns of a class that fit a kind, in pieces: in each piece all columns lead to the same
    /// kind.
    fn moved_pieces(
        &self,
        alloc: Global,
        stage: u32,
        kind: &Kind,
        class: &Class,
    ) -> Result<Vec<Class>, NoMemory>
        requires stage { stage ≤ length (constraints_in self.now) }
        requires fits { FitsFrame self.now stage kind.now }
        requires width { length (sets_of class.now) ≡ (tiers_in self.now).width }
        ensures fitting { IfOk result (λ pieces. AreFitting self.now stage kind.now class.now
            pieces.items) }
        ensures moved { IfOk result (λ pieces. All
            (IsMovedAlike self.now stage kind.now) pieces.items) }
    {
        let width = class.width();
        let fitting = self.fitting(alloc, kind, class)?;
        let opened = parts_by_open(alloc, width, fitting)?;
        let first = &self.grammar.constraints.as_slice()[..stage as usize];
        let pieces = parts_by_phases(alloc, width, first, kind, opened)?;
        Ok(pieces)
    }

    /// Parts pieces by what their columns cost under a constraint.
    fn costed_pieces(
        &self,
        alloc: Global,
        stage: u32,
        constraint: u32,
        kind: &Kind,
        classes: Vec<Class>,
    ) -> Result<Vec<Class>, NoMemory>
        requires stage { stage ≤ length (constraints_in self.now) }
        requires within { constraint ≤ stage }
        requires fits { FitsFrame self.now stage kind.now }
        requires pieces { ArePieces (tiers_in self.now).width classes.items }
        ensures { IfOk result (λ pieces. ArePartedBy (tiers_in self.now).width
            (cost_under self.now stage constraint kind.now) classes.items pieces.items) }
    {
        if constraint == 0 {
            return Ok(classes);
        }
        let test = self.cost_test(stage, constraint, kind);
        let pieces = part(alloc, classes, &test)?;
        Ok(pieces)
    }

    /// What the move from a kind by a column costs under a constraint, which is counted from 1 in
    /// ranked order; 0 if `constraint` is 0.
    fn cost_or_none(&self, stage: u32, constraint: u32, kind: &Kind, column: &Column) -> u32
        requires stage { stage ≤ length (constraints_in self.now) }
        requires within { constraint ≤ stage }
        requires fits { FitsFrame self.now stage kind.now }
        requires width { length column.now ≡ (tiers_in self.now).width }
        ensures { result ≡ cost_under self.now stage constraint kind.now column.now }
    {
        if constraint == 0 {
            return 0;
        }
        self.cost(stage, constraint, kind, column)
    }

    /// The piece of a class that is not empty, whose columns fit a kind, lead to one kind, and cost
    /// the same under a constraint, which is counted from 1 in ranked order. If `constraint` is 0, the
    /// piece costs nothing.
    pub fn piece(
        &self,
        alloc: Global,
        stage: u32,
        constraint: u32,
        kind: &Kind,
        class: &Class,
    ) -> Piece
        requires stage { stage ≤ length (constraints_in self.now) }
        requires within { constraint ≤ stage }
        requires fits { FitsFrame self.now stage kind.now }
        requires filled { IsTrue (is_filled class.now) }
        requires columns { (column : List Sym) → IsTrue (has class.now column)
            → FitsAt self.now stage kind.now column }
        requires moved { IsMovedAlike self.now stage kind.now class.now }
        requires costed { IsAlike (cost_under self.now stage constraint kind.now) class.now }
        ensures class { result.class ≡ class.now }
        ensures piece { IsPiece self.now stage constraint kind.now result }
    {
        let least = least_column(alloc, class);
        let Some(target) = self.moved(stage, kind, &least) else {
            unreachable!()
        };
        let cost = self.cost_or_none(stage, constraint, kind, &least);
        Piece {
            class: *class,
            target,
            cost,
        }
    }

    /// The pieces of some classes. In each class all columns fit a kind, lead to one kind, and cost
    /// the same.
    fn told_pieces(
        &self,
        alloc: Global,
        stage: u32,
        constraint: u32,
        kind: &Kind,
        classes: &[Class],
    ) -> Result<Vec<Piece>, AllocError>
        requires stage { stage ≤ length (constraints_in self.now) }
        requires within { constraint ≤ stage }
        requires fits { FitsFrame self.now stage kind.now }
        requires filled { All (λ class. IsTrue (is_filled class)) classes.now }
        requires columns { All (λ class. (column : List Sym) → IsTrue (has class column)
            → FitsAt self.now stage kind.now column) classes.now }
        requires moved { All (IsMovedAlike self.now stage kind.now) classes.now }
        requires costed { All (IsAlike (cost_under self.now stage constraint kind.now))
            classes.now }
        ensures classes { IfOk result (λ pieces. piece_classes pieces.items ≡ classes.now) }
        ensures each { IfOk result (λ pieces. All (IsPiece self.now stage constraint kind.now)
            pieces.items) }
    {
        let mut pieces = Vec::new(alloc);
        for class in classes {
            let piece = self.piece(alloc, stage, constraint, kind, class);
            pieces.push(piece)?;
        }
        Ok(pieces)
    }

    /// Parts the columns of a class that fit a kind: all columns of a piece lead to its target under
    /// the first `stage` constraints, and cost what it says under one of these, which is counted from
    /// 1 in ranked order. If `constraint` is 0, all costs are 0. No piece is empty, each column that
    /// fits is in exactly one piece, and no other column is in any. It fails only if memory runs
    /// out.
    pub fn pieces(
        &self,
        alloc: Global,
        stage: u32,
        constraint: u32,
        kind: &Kind,
        class: &Class,
    ) -> Result<Vec<Piece>, NoMemory>
        requires stage { stage ≤ length (constraints_in self.now) }
        requires within { constraint ≤ stage }
        requires fits { FitsFrame self.now stage kind.now }
        requires width { length (sets_of class.now) ≡ (tiers_in self.now).width }
        ensures pieces { IfOk result (λ pieces. ArePieces (tiers_in self.now).width
            (piece_classes pieces.items)) }
        ensures columns { IfOk result (λ pieces. (column : List Sym)
            → IsTrue (some_has (piece_classes pieces.items) column)
            ↔ (IsTrue (has class.now column) × FitsAt self.now stage kind.now column)) }
        ensures each { IfOk result (λ pieces. All (IsPiece self.now stage constraint kind.now)
            pieces.items) }
    {
        let moved = self.moved_pieces(alloc, stage, kind, class)?;
        let costed = self.costed_pieces(alloc, stage, constraint, kind, moved)?;
        match self.told_pieces(alloc, stage, constraint, kind, &costed) {
            Ok(pieces) => Ok(pieces),
            Err(_) => Err(NoMemory),
        }
    }
}
