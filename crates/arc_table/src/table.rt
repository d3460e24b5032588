ghost use Rattle.std.specs.Prelude.{◌≡◌, ◌<◌, ◌^◌, length};
ghost use Rattle.arc_table.specs.Moves.{moves_at, accepting_at};
ghost use Rattle.arc_table.specs.Conditions.{TargetsExist, ClassesDisjoint, ClassesFilled, OneWidth};

use crate::arc::TableArc;
use crate::state::TableState;
use weight_law::Weight;

/// States, numbered from 0; state 0 is the start.
#[derive(Drop)]
pub struct Table<W: Weight> {
    states: Vec<TableState<W>>,
    pub ghost some: { 0 < length states.items },
    pub ghost few: { length states.items < 2 ^ 32 },
    pub ghost targets: { TargetsExist states.items },
    pub ghost disjoint: { ClassesDisjoint states.items },
    pub ghost filled: { ClassesFilled states.items },
    pub ghost one_width: { OneWidth states.items },
}

impl<W: Weight> Table<W> {
    ghost use Rattle.arc_table.specs.States.{states_of};

    /// The table of exactly these states. Allocates no memory.
    pub fn of_states(states: Vec<TableState<W>>) -> Table<W>
        requires some { 0 < length states.items }
        requires few { length states.items < 2 ^ 32 }
        requires targets { TargetsExist states.items }
        requires disjoint { ClassesDisjoint states.items }
        requires filled { ClassesFilled states.items }
        requires one_width { OneWidth states.items }
        ensures { states_of result ≡ states.items }
    {
        Table { states }
    }

    /// The number of states.
    pub fn len(&self) -> u32
        ensures { result ≡ length (states_of self.now) }
    {
        self.states.len() as u32
    }

    /// Whether a path may end at the state.
    pub fn accepting(&self, state: u32) -> bool
        requires { state < length (states_of self.now) }
        ensures { result ≡ accepting_at (states_of self.now) state }
    {
        self.states[state as usize].accepting
    }

    /// The moves from the state.
    pub fn arcs(&self, state: u32) -> &[TableArc<W>]
        requires { state < length (states_of self.now) }
        ensures { result.now ≡ moves_at (states_of self.now) state }
    {
        &self.states[state as usize].arcs
    }
}
