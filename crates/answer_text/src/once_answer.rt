use crate::automaton::Automaton;
use tier_core::{Kind, Timeline};
use weight_law::Ranked;

/// A kind of prefix under all constraints, and the least counts that remain from it: one part for
/// each constraint in ranked order, then zeros.
#[derive(Clone, Copy, Debug, PartialEq, Eq)]
pub struct OnceNode {
    pub kind: Kind,
    pub potential: Ranked,
}

/// What a single pass finds for a grammar and a form.
///
/// `counts` has the least count of each constraint in ranked order, and `example` is the first optimal
/// timeline. `nodes` are the kinds under all constraints of prefixes of candidates, in kind order and
/// numbered from 0, and the states of the automaton have the numbers of these nodes.
#[derive(Drop)]
pub struct OnceAnswer {
    pub form: Timeline,
    pub counts: Vec<u32>,
    pub example: Timeline,
    pub nodes: Vec<OnceNode>,
    pub automaton: Automaton,
}
