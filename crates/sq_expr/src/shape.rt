//! What a statement with groups, DISTINCT or LIMIT makes of its matches.
use crate::cond::ColumnOf;
use sq_value::{SortWay, SqText};
use sqlite_items::Items;

/// SQL's set functions, over the members of a group: how many members there are; and of the values of a
/// column that aren't NULL, how many there are, their sum, the least and the greatest of them.
#[derive(Clone, Copy, Debug, PartialEq, Eq)]
pub enum AggKind {
    CountAll,
    Count,
    Sum,
    Min,
    Max,
}

/// A cell of each line, and its name in the heading: a set function of a column, or without one the
/// column's value at the first member of the line's group. `CountAll` has column 0 of alias 0.
#[derive(Debug, Drop)]
pub struct Cell {
    /// The set function, if it is one.
    pub agg: Option<AggKind>,
    /// The column that it shows, or that its set function takes.
    pub column: ColumnOf,
    /// Its name in the heading.
    pub name: SqText,
}

/// What lines are sorted by: the cell at a place, counted from 0, or a column at the first member.
#[derive(Clone, Copy, Debug)]
pub enum SortOn {
    Cell(u32),
    Column(ColumnOf),
}

/// A key of the ORDER BY clause of a shaped statement.
#[derive(Clone, Copy, Debug)]
pub struct ShapeOrder {
    /// What it sorts by.
    pub on: SortOn,
    /// How that is sorted.
    pub way: SortWay,
}

/// What is made of the matches of a block: SELECT [DISTINCT] `cells` .. GROUP BY `keys` ORDER BY `order`
/// LIMIT `limit`.
///
/// It is grouped where the statement has GROUP BY or a set function; else each match is a line.
#[derive(Debug, Drop)]
pub struct Shape {
    /// Whether matches are put into groups.
    pub grouped: bool,
    /// The columns of GROUP BY.
    pub keys: Items<ColumnOf>,
    /// The cells of a line, in order.
    pub cells: Items<Cell>,
    /// The keys of ORDER BY, the first of most weight.
    pub order: Items<ShapeOrder>,
    /// Whether equal lines are told once.
    pub distinct: bool,
    /// The most lines that are told, if LIMIT says.
    pub limit: Option<u64>,
}
