//! The parts of a worked case's line, and keys as numbers.

use sq_value::Key;

/// A worked case, of a line with bars: what is wanted, the ways of the tables, the statement, and how it is run, where
/// that is said.
#[derive(Drop)]
pub struct Case<'l> {
    /// What is wanted.
    pub want: &'l str,
    /// How the tables are reached.
    pub ways: &'l str,
    /// The statement.
    pub text: &'l str,
    /// How it is run.
    pub how: &'l str,
}

/// The parts of a line, which are empty where it has too few bars.
pub fn cut(line: &str) -> Case<'_> {
    let (want, rest) = line.split_once(" | ").unwrap_or(("no bar", ""));
    let (ways, rest) = rest.split_once(" | ").unwrap_or(("", ""));
    let (text, how) = rest.split_once(" | ").unwrap_or((rest, ""));
    Case {
        want,
        ways,
        text,
        how,
    }
}

/// A number's key, in millionths; 0 for a text's.
pub fn digits_of(key: &Key<'_>) -> i128 {
    match key {
        Key::Number(number) => *number,
        Key::Text(_) => 0,
    }
}
