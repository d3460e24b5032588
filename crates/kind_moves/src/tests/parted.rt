//! Pieces of the class of all columns, compared with the moves of single columns.
ghost use Rattle.std.specs.Prelude.{◌≡◌, ◌≤◌, length};
ghost use Rattle.violation.specs.Problems.{last_stage};
ghost use Rattle.kind_moves.specs.Frames.{problem_in, tiers_in, FitsFrame};

use crate::boxes::whole;
use crate::tests::column_of;
use crate::{Frame, Piece};
use std::alloc::Global;
use std::test::Fail;
use tier_core::{Column, Kind};

/// What a column costs under a constraint, or 0 if the constraint is 0.
fn cost_of(frame: &Frame<'_>, stage: u32, constraint: u32, kind: &Kind, column: &Column) -> u32
    requires stage { stage ≤ last_stage (problem_in frame.now) }
    requires within { constraint ≤ stage }
    requires fits { FitsFrame frame.now stage kind.now }
    requires width { length column.now ≡ (tiers_in frame.now).width }
{
    if constraint == 0 {
        return 0;
    }
    frame.cost(stage, constraint, kind, column)
}

/// Whether pieces do with a column what its own move does: none has it if there is no move, and
/// otherwise exactly one has it, with the move's target and cost.
fn agree_at(
    frame: &Frame<'_>,
    stage: u32,
    constraint: u32,
    kind: &Kind,
    pieces: &[Piece],
    column: &Column,
) -> bool
    requires stage { stage ≤ last_stage (problem_in frame.now) }
    requires within { constraint ≤ stage }
    requires fits { FitsFrame frame.now stage kind.now }
    requires width { length column.now ≡ (tiers_in frame.now).width }
{
    let holders = pieces
        .iter()
        .filter(|piece| piece.class.has(column))
        .count();
    let Some(next) = frame.moved(stage, kind, column) else {
        return holders == 0;
    };
    let cost = cost_of(frame, stage, constraint, kind, column);
    holders == 1
        && pieces.iter().all(|piece| {
            !piece.class.has(column) || piece.target == next && piece.cost == cost
        })
}

/// Whether the pieces of all columns agree with the moves of single columns at a kind.
pub fn agree(
    alloc: Global,
    frame: &Frame<'_>,
    stage: u32,
    constraint: u32,
    kind: &Kind,
    per: u32,
) -> Result<bool, Fail>
    requires stage { stage ≤ last_stage (problem_in frame.now) }
    requires within { constraint ≤ stage }
    requires fits { FitsFrame frame.now stage kind.now }
{
    let width = frame.grammar.tiers.kinds.as_slice().len();
    let class = whole(width as u32);
    let Ok(pieces) = frame.pieces(alloc, stage, constraint, kind, &class) else {
        return Err(Fail::new("no memory"));
    };
    for number in 0..per {
        let column = column_of(alloc, width, number);
        if !agree_at(frame, stage, constraint, kind, &pieces, &column) {
            return Ok(false);
        }
    }
    Ok(true)
}
