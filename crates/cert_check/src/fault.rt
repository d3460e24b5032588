use tier_core::{Column, Kind};

/// What is wrong in an answer. Stages are numbered from 0, constraints from 1, and nodes from 0 in
/// each stage. A state is named by its node in the last stage.
#[derive(Drop)]
pub enum Fault {
    /// The form is not well formed and reduced over the input tiers, or has more than 64 columns.
    FormWrong,
    /// The number of stages, or of counts and one more, is not one more than that of constraints.
    /// The first that differs is listed.
    StageMissing {
        listed: u32,
        wanted: u32,
    },
    /// The example is not a candidate of the form.
    ExampleWrong,
    /// A count is not what the constraint counts on the example.
    CountsDiffer {
        constraint: u32,
        listed: u32,
        counted: u32,
    },
    /// The place of a node is past the end of the form; a phase is closed although all left tiers are
    /// open, or the other way round; the node does not come after the one before it; or, from stage 1
    /// on, its cut is not a node of the stage before.
    NodeWrong {
        stage: u32,
        node: u32,
    },
    /// Node 0 is not the kind of the empty prefix.
    StartMissing {
        stage: u32,
    },
    /// A final node has a potential other than 0.
    FinalPotential {
        stage: u32,
        node: u32,
        listed: u32,
    },
    /// The kind to which a kept move leads is not listed.
    NotClosed {
        stage: u32,
        node: u32,
        missing: Kind,
    },
    /// The potential is above what a kept move costs and the potential to which it leads.
    Potential {
        stage: u32,
        node: u32,
        listed: u32,
        allowed: u32,
    },
    /// The start's potential is not 0 at stage 0, or at a later stage not the count of its constraint.
    StartPotential {
        stage: u32,
        listed: u32,
        count: u32,
    },
    /// Node 0 is not a state, if both numbers are 0; or an arc leads to a node that is not a state.
    StateMissing {
        state: u32,
        target: u32,
    },
    /// A state is marked as final although its kind is not final, or the other way round.
    FinalsDiffer {
        state: u32,
        listed: bool,
    },
    /// A column is in two arcs of a state. It is the least such column.
    ArcsTwice {
        state: u32,
        column: Column,
    },
    /// On a column the listed target is not that of the move that is kept at the end. It is the least
    /// such column. If there is no target, none is given.
    ArcsDiffer {
        state: u32,
        column: Column,
        listed: Option<u32>,
        kept: Option<u32>,
    },
}

/// What a checker says of an answer.
#[derive(Drop)]
pub enum Verdict {
    /// No fault is in it.
    Yes,
    /// The fault that comes first.
    No(Fault),
}
