//! What a script says, as a tree with the places of its parts.

use sq_expr::AggKind;
use sq_value::{Cmp, SortWay, SqText, Truth};
use sqlite_items::{Boxed, Items as List};

/// A name as it is written, without the quotes of a delimited one, and the place of its first byte.
#[derive(Debug, Drop)]
pub struct Name {
    /// The name, without quotes.
    pub text: SqText,
    /// The place of its first byte, from 0.
    pub at: u32,
}

/// A column, by its name and, where one is written, its alias.
#[derive(Debug, Drop)]
pub struct ColRef {
    /// The alias, where one is written.
    pub alias: Option<Name>,
    /// The column's name.
    pub column: Name,
}

/// A select list: everything, or one or more items.
#[derive(Debug, Drop)]
pub enum Items {
    Star,
    List(List<Item>),
}

/// An item of a select list: all columns of an alias, a column and the name that it gets, or an aggregate and the name
/// that it gets. `at` is the aggregate's place, and `COUNT(*)` has no column.
#[derive(Debug, Drop)]
pub enum Item {
    AllOf(Name),
    Col(ColRef, Option<Name>),
    Agg {
        at: u32,
        kind: AggKind,
        column: Option<ColRef>,
        name: Option<Name>,
    },
}

/// A table of FROM under its alias, which is its own name where none is written, and the condition
/// under which it was joined.
#[derive(Debug, Drop)]
pub struct Source {
    /// The table's name.
    pub table: Name,
    /// The alias, or the table's name where none is written.
    pub alias: Name,
    /// The condition of its JOIN, if it was joined so.
    pub on: Option<Tree>,
}

/// A column of ORDER BY, and how it is sorted.
#[derive(Debug, Drop)]
pub struct OrderItem {
    /// The column.
    pub column: ColRef,
    /// How it is sorted.
    pub way: SortWay,
}

/// A SELECT statement. `distinct` stands for DISTINCT, `groups` for the columns of GROUP BY, and `limit` for LIMIT.
#[derive(Debug, Drop)]
pub struct Statement {
    /// Whether DISTINCT is written.
    pub distinct: bool,
    /// What SELECT lists.
    pub items: Items,
    /// The tables of FROM, in order.
    pub sources: List<Source>,
    /// The condition of WHERE, if there is one.
    pub condition: Option<Tree>,
    /// The columns of GROUP BY.
    pub groups: List<ColRef>,
    /// The columns of ORDER BY.
    pub order: List<OrderItem>,
    /// The number of LIMIT, if there is one.
    pub limit: Option<u64>,
}

/// A script: 1 to 64 statements, in order.
#[derive(Debug, Drop)]
pub struct Script {
    /// The statements, in order.
    pub statements: List<Statement>,
}

/// A term of a sum: a number, a column, or their product. `at` is the place behind its sign.
#[derive(Debug, Drop)]
pub struct RawTerm {
    /// The place behind its sign, in bytes from 0.
    pub at: u32,
    /// Whether it is taken away.
    pub negative: bool,
    /// Its number, if it has one.
    pub number: Option<i64>,
    /// Its column, if it has one.
    pub column: Option<ColRef>,
}

/// What a predicate speaks of. `at` is the place of its first byte.
#[derive(Debug, Drop)]
pub enum Operand {
    Null { at: u32 },
    Text { at: u32, text: SqText },
    Sum { at: u32, terms: List<RawTerm> },
}

/// A condition. `at` is the place of a predicate's first byte. The upper bound of BETWEEN lies apart, so that a
/// condition has room for two operands: the parser holds one on its stack for each that is open.
#[derive(Debug, Drop)]
pub enum Tree {
    Compare {
        at: u32,
        left: Operand,
        cmp: Cmp,
        right: Operand,
    },
    Between {
        at: u32,
        negated: bool,
        subject: Operand,
        low: Operand,
        high: Boxed<Operand>,
    },
    Within {
        at: u32,
        negated: bool,
        subject: Operand,
        items: List<Operand>,
    },
    IsNull {
        at: u32,
        negated: bool,
        subject: Operand,
    },
    Call {
        function: Name,
        args: List<Operand>,
    },
    Not(Boxed<Tree>),
    All(List<Tree>),
    Any(List<Tree>),
    Is {
        tree: Boxed<Tree>,
        negated: bool,
        truth: Truth,
    },
}
