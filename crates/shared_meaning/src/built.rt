//! An entry of the build log of a shared run.

/// A row of a table, by the table's number. It stands in the log once, whatever the number of the queries and the
/// aliases that use the table.
#[derive(Clone, Copy, Debug, PartialEq, Eq)]
pub struct TableBuilt {
    /// The number of the table.
    pub table: u32,
    /// The number of the row in it.
    pub row: u32,
}
