ghost use Rattle.std.specs.Prelude.{◌≡◌, ◌+◌, ◌≤◌};
ghost use Rattle.arc_table.specs.States.{states_of};
ghost use Rattle.kind_moves.specs.Frames.{problem_in};
ghost use Rattle.violation.specs.Problems.{last_stage};
ghost use Rattle.stage_tables.specs.Listed.{IsOverOne, IsOfWidth};

use arc_table::Table;
use kind_moves::Frame;
use weight_law::UnitWeight;

/// A kept table that is explored under the first `stage` constraints of a frame, up to a number of
/// kinds. Its moves are parted by what they cost under each of these constraints from `first` on,
/// counted from 1. If `before` is the stage before, the table is what this has left, and only the
/// last constraint is looked at.
#[derive(Drop)]
pub(crate) struct Exploring<'a> {
    pub frame: &'a Frame<'a>,
    pub before: u32,
    pub first: u32,
    pub stage: u32,
    pub kept: &'a Table<UnitWeight>,
    pub budget: u32,
    pub ghost within: { stage ≤ last_stage (problem_in frame.now) },
    pub ghost over_one: { IsOverOne frame.now stage (states_of kept.now) },
    pub ghost wide: { IsOfWidth frame.now (states_of kept.now) },
    pub ghost last_alone: { before + 1 ≡ stage → first ≡ stage },
}
