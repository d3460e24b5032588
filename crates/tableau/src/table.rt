use tier_core::Timeline;

/// A candidate in a tableau.
///
/// `counts` has its violations of each constraint in ranked order. `worse` is the number, from 0,
/// of the first constraint at which they are more than the least, and `None` if the candidate is
/// optimal.
#[derive(Drop)]
pub struct TableauRow {
    pub timeline: Timeline,
    pub counts: Vec<u32>,
    pub worse: Option<u32>,
}

/// A form, the names of the constraints in ranked order, and rows with candidates of the form. The
/// first row is the example of an answer.
#[derive(Drop)]
pub struct Tableau {
    pub form: Timeline,
    pub names: Vec<String>,
    pub rows: Vec<TableauRow>,
}
