//! What the words of the command line ask for.

use sq_value::SqText;
use sqlite_items::Items;

/// A table of the command line, `NAME=FILE`: its name, and the name of its file.
#[derive(Debug, Drop)]
pub struct TableWord {
    /// The table's name.
    pub name: SqText,
    /// The name of its file.
    pub file: SqText,
}

/// An access that is asked for, `T.C`: the number of its table among those of the command line,
/// from 0, its column's name as it was given, and whether the table is scanned beside. The
/// accesses of `--index` keep the scan, and those of `--lookup` don't.
#[derive(Debug, Drop)]
pub struct AccessWord {
    /// The table's number among those of the command line, from 0.
    pub table: u32,
    /// The column's name, as it was given.
    pub column: SqText,
    /// Whether the table is scanned, too.
    pub scan: bool,
}

/// A remote of the command line, `T.C=PREFIX`: its name, the name of the column that it is looked up
/// by, as it was given, and what the names of its files begin with.
#[derive(Debug, Drop)]
pub struct RemoteWord {
    /// The remote's name.
    pub name: SqText,
    /// The name of its key column, as it was given.
    pub column: SqText,
    /// What the names of its files begin with.
    pub prefix: SqText,
}

/// The name of a policy.
#[derive(Clone, Copy, Debug, PartialEq, Eq)]
pub enum PolicyName {
    /// The ticket lottery.
    Lottery,
    /// Back pressure.
    Pressure,
    /// The greedy policy.
    Greedy,
    /// The route script of `--route`.
    Script,
}

/// A script to run over tables: the name of its file, the tables in the order of their words, the
/// accesses, those of `--index` first, and the remotes in the order of their items.
#[derive(Debug, Drop)]
pub struct Query {
    /// The name of the script's file.
    pub script: SqText,
    /// The tables, in the order of their words.
    pub tables: Items<TableWord>,
    /// The accesses, those of `--index` first.
    pub accesses: Items<AccessWord>,
    /// The remotes, in the order of their items.
    pub remotes: Items<RemoteWord>,
}

/// What is to be run: a script over tables, or the demo with so many rows a table.
#[derive(Debug, Drop)]
pub enum Task {
    Query(Query),
    Demo { rows: u32 },
}

/// What the words ask for: the number of workers, the policy, the seed of the lottery, the text of
/// the route script, the room of each cache of predicates' answers, 0 to 4,096, where 0 is none,
/// whether a line of counts is wanted for each query, or one for all where all run together, whether
/// they do, and what is to be run.
#[derive(Debug, Drop)]
pub struct Command {
    /// The number of workers, 1 to 16.
    pub workers: u32,
    /// The name of the policy.
    pub policy: PolicyName,
    /// The seed of the lottery.
    pub seed: u64,
    /// The text of the route script.
    pub route: SqText,
    /// The room of each cache of predicates' answers, 0 to 4,096; 0 is none.
    pub cache: u32,
    /// Whether a line of counts is wanted for each query.
    pub tally: bool,
    /// Whether all statements run together.
    pub shared: bool,
    /// What is to be run.
    pub task: Task,
}
