use crate::automaton::Automaton;
use crate::stage::Stage;
use tier_core::Timeline;

/// What is found for a grammar and a form.
///
/// `counts` has the least count of each constraint in ranked order, `example` is the first optimal
/// timeline, and there is one stage more than there are constraints.
#[derive(Drop)]
pub struct Answer {
    pub form: Timeline,
    pub counts: Vec<u32>,
    pub example: Timeline,
    pub stages: Vec<Stage>,
    pub automaton: Automaton,
}
