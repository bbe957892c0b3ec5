//! Lines, and what is in their cells.
use sq_value::SqText;
use sqlite_items::Items;

/// What is in a cell of a line: nothing, so many units of 10 to the power of -`scale`, or a text. A sum
/// of a column's values may pass 64 bits, and never passes 128.
#[derive(Debug, Drop)]
pub enum Out {
    Null,
    Number { units: i128, scale: u8 },
    Text(SqText),
}

/// A line: one cell for each of the shape's.
#[derive(Debug, Drop)]
pub struct Line {
    /// A cell for each of the shape's, in order.
    pub cells: Items<Out>,
}
