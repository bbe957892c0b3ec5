//! The picture as text.

use crate::figures::{Figures, Row, given_in, percent, sum_of};
use crate::labels::Scope;
use route_counts::{Lane, PARTS};
use std::alloc::{AllocError, Global};

impl<'t> Scope<'t> {
    /// What a lane does, in words.
    pub(crate) fn deed(&self, alloc: Global, lane: Lane) -> Result<String, AllocError> {
        match lane {
            Lane::Select(number) => self.deed_by(alloc, "test", number),
            Lane::Build(alias) => {
                let name = self.alias(alias);
                format!(in alloc; "build {name}")
            }
            Lane::All(alias) => {
                let name = self.alias(alias);
                format!(in alloc; "probe all of {name}")
            }
            Lane::Equal(alias, number)
            | Lane::Literal(alias, number)
            | Lane::Range(alias, number) => self.probe_by(alloc, alias, number),
            Lane::Band(alias, number) => self.probe_by_band(alloc, alias, number),
        }
    }

    // A deed by a conjunct.
    fn deed_by(&self, alloc: Global, what: &str, number: usize) -> Result<String, AllocError> {
        let conjunct = self.conjunct(alloc, number)?;
        format!(in alloc; "{what} {conjunct}")
    }

    // A probe of an alias by a conjunct.
    fn probe_by(&self, alloc: Global, alias: usize, number: usize) -> Result<String, AllocError> {
        let name = self.alias(alias);
        let what = format!(in alloc; "probe {name} by")?;
        self.deed_by(alloc, what.as_str(), number)
    }

    // A probe of an alias by a band.
    fn probe_by_band(
        &self,
        alloc: Global,
        alias: usize,
        number: usize,
    ) -> Result<String, AllocError> {
        let first = self.probe_by(alloc, alias, number)?;
        let what = format!(in alloc; "{first} AND")?;
        self.deed_by(alloc, what.as_str(), number.saturating_add(1))
    }
}

// Whether a lane goes by a conjunct.
fn goes_by(lane: Lane, conjunct: usize) -> bool {
    match lane {
        Lane::Build(_) | Lane::All(_) => false,
        Lane::Select(number)
        | Lane::Equal(_, number)
        | Lane::Literal(_, number)
        | Lane::Range(_, number) => number == conjunct,
        Lane::Band(_, number) => number == conjunct || number.saturating_add(1) == conjunct,
    }
}

/// The word of a lane, as route scripts have it.
pub(crate) fn word_of(alloc: Global, lane: Lane) -> Result<String, AllocError> {
    match lane {
        Lane::Select(number) => format!(in alloc; "s{number}"),
        Lane::Build(_) => String::from_str(alloc, "b"),
        Lane::All(alias) => format!(in alloc; "a{alias}"),
        Lane::Equal(_, number) | Lane::Literal(_, number) | Lane::Range(_, number) => {
            format!(in alloc; "v{number}")
        }
        Lane::Band(_, number) => format!(in alloc; "w{number}"),
    }
}

// Adds a number with a blank before it.
fn push_number(alloc: Global, text: &mut String, number: u64) -> Result<(), AllocError> {
    text.push_str(format!(in alloc; " {number:>3}")?.as_str())
}

// Adds the share that a lane had of each part's routings.
fn push_shares(
    alloc: Global,
    text: &mut String,
    row: &Row,
    rows: &[Row],
) -> Result<(), AllocError> {
    text.push_str("    share of the part's routings, in percent:  ")?;
    for part in 0..PARTS {
        push_number(alloc, text, percent(row.given[part], given_in(rows, part)))?;
    }
    text.push_str("\n")
}

// Adds how many tuples came of a hundred in each part.
fn push_rates(alloc: Global, text: &mut String, row: &Row) -> Result<(), AllocError> {
    text.push_str("    came of a hundred that it was given:       ")?;
    for part in 0..PARTS {
        push_number(alloc, text, percent(row.came[part], row.given[part]))?;
    }
    text.push_str("\n")
}

// Adds a row: its lane, its sums and its ten parts.
fn push_row(
    alloc: Global,
    text: &mut String,
    scope: &Scope<'_>,
    row: &Row,
    rows: &[Row],
) -> Result<(), AllocError> {
    let word = word_of(alloc, row.lane)?;
    let deed = scope.deed(alloc, row.lane)?;
    let given = sum_of(&row.given);
    let came = sum_of(&row.came);
    let line = format!(in alloc; "  {word:<4}{deed}: given {given}, came {came}\n")?;
    text.push_str(line.as_str())?;
    push_shares(alloc, text, row, rows)?;
    push_rates(alloc, text, row)
}

// Adds how many rows were built of each alias.
fn push_built(
    alloc: Global,
    text: &mut String,
    scope: &Scope<'_>,
    built: &[usize],
) -> Result<(), AllocError> {
    for (alias, count) in built.iter().enumerate() {
        let name = scope.alias(alias);
        text.push_str(format!(in alloc; " {name} {count}")?.as_str())?;
    }
    Ok(())
}

// How many tuples the routes by a conjunct were given, and how many came of them.
fn met_by(rows: &[Row], number: usize) -> (u64, u64) {
    let mut given: u64 = 0;
    let mut came: u64 = 0;
    for row in rows {
        if goes_by(row.lane, number) {
            given = given.saturating_add(sum_of(&row.given));
            came = came.saturating_add(sum_of(&row.came));
        }
    }
    (given, came)
}

// Adds the line of each conjunct: its text, and its selectivity as the run met it.
fn push_conjuncts(
    alloc: Global,
    text: &mut String,
    scope: &Scope<'_>,
    rows: &[Row],
) -> Result<(), AllocError> {
    for number in 0..scope.block.conjuncts.len() {
        let conjunct = scope.conjunct(alloc, number)?;
        let (given, came) = met_by(rows, number);
        let of_hundred = percent(came, given);
        text.push_str(format!(in alloc; "  conjunct {number}, {conjunct}: ")?.as_str())?;
        let met = format!(in alloc; "given {given}, came {came}, {of_hundred} of a hundred\n")?;
        text.push_str(met.as_str())?;
    }
    Ok(())
}

/// The picture of a run, as text.
///
/// # Errors
/// There is no memory for it.
pub fn text_of(alloc: Global, scope: &Scope<'_>, figures: &Figures) -> Result<String, AllocError> {
    let number = figures.number;
    let mut text = format!(in alloc; "query {number}: built")?;
    push_built(alloc, &mut text, scope, figures.built.as_slice())?;
    let hops = figures.hops;
    let looked = figures.looked;
    text.push_str(format!(in alloc; "; hops {hops}; looked {looked}\n")?.as_str())?;
    push_conjuncts(alloc, &mut text, scope, figures.rows.as_slice())?;
    for row in figures.rows.iter() {
        push_row(alloc, &mut text, scope, row, figures.rows.as_slice())?;
    }
    Ok(text)
}
