//! Bound queries.
use crate::cond::Cond;
use crate::conjuncts::Conjuncts;
use sq_value::{SortWay, SqText};
use sqlite_items::Items;

/// A condition that must be True for a combination to be a match, and the set of aliases that
/// occur in it: bit a of `span` stands for alias a.
#[derive(Debug, Drop)]
pub struct Conjunct {
    /// The condition.
    pub cond: Cond,
    /// The set of the aliases that occur in it, by bits.
    pub span: u16,
}

/// How the rows of a table are reached: by a scan, by look-ups in one column, or by both.
#[derive(Clone, Copy, Debug)]
pub struct Access {
    /// Whether all rows are reached, one after another.
    pub scan: bool,
    /// The column that rows are looked up by, from 0, if there is one.
    pub look_up: Option<u32>,
}

/// An alias of the FROM clause: the number of its table, and how its rows are reached.
#[derive(Clone, Copy, Debug)]
pub struct AliasUse {
    /// The number of its table.
    pub table: u32,
    /// How its rows are reached.
    pub access: Access,
}

/// An output column: a column of an alias, and its name in the heading.
#[derive(Debug, Drop)]
pub struct OutCol {
    /// The number of the alias.
    pub alias: u8,
    /// The column's place in the alias's table, from 0.
    pub column: u32,
    /// Its name in the heading.
    pub name: SqText,
}

/// A key of the ORDER BY clause.
#[derive(Clone, Copy, Debug)]
pub struct OrderKey {
    /// The number of the alias.
    pub alias: u8,
    /// The column's place in the alias's table, from 0.
    pub column: u32,
    /// How the column is sorted.
    pub way: SortWay,
}

/// A bound query: SELECT `output` FROM `aliases` WHERE all of `conjuncts` ORDER BY `order`.
#[derive(Debug, Drop)]
pub struct Block {
    /// The aliases of FROM, in order; 1 to 12.
    pub aliases: Items<AliasUse>,
    /// What must be True of a match; at most 48.
    pub conjuncts: Conjuncts,
    /// The columns of a row of the answer, in order.
    pub output: Items<OutCol>,
    /// The keys of ORDER BY, the first of most weight.
    pub order: Items<OrderKey>,
}
