/// A condition on a column, asked for a type of events.
#[derive(Clone, Copy, Debug, PartialEq, Eq)]
pub(crate) enum Ask {
    /// An event of the type is present at the column.
    Present,
    /// No event of the type is present at the column.
    Absent,
    /// The column has no edge on the type's tier.
    NoEdge,
    /// The type's tier is open after the column.
    Open,
    /// The type is not an interior, or its tier is not open after the column.
    NoInteriorOpen,
    /// The type is an interior, or no event of it is present at the column.
    NoEdgePresent,
}
