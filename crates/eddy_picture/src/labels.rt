//! Names of aliases and columns, as a picture shows them.

use sq_expr::{Block, ColumnOf};
use sq_value::{Column, Tables};
use std::alloc::{AllocError, Global};

/// What the numbers of a block are shown by: its tables, a label for each alias, and the names of the predicates in the
/// order of their numbers.
#[derive(Clone, Copy)]
pub struct Scope<'t> {
    /// The block.
    pub block: &'t Block,
    /// Its tables.
    pub tables: &'t Tables,
    /// A label for each alias, by the alias's number.
    pub labels: &'t [String],
    /// The names of the predicates, by their numbers.
    pub predicates: &'t [&'t str],
}

impl<'t> Scope<'t> {
    /// The label of an alias.
    pub(crate) fn alias(&self, alias: usize) -> &str {
        match self.labels.get(alias) {
            Some(label) => label.as_str(),
            None => "?",
        }
    }

    /// The name of a predicate.
    pub(crate) fn predicate(&self, number: u8) -> &str {
        match self.predicates.get(usize::from(number)) {
            Some(name) => name,
            None => "?",
        }
    }

    // The columns of an alias's table.
    fn columns(&self, alias: usize) -> &[Column] {
        match self.block.aliases.as_slice().get(alias) {
            Some(it) if it.table < self.tables.len() => self.tables.get(it.table).columns(),
            _ => &[],
        }
    }

    // The name of a column.
    fn column_name(&self, column: ColumnOf) -> &str {
        match self
            .columns(usize::from(column.alias))
            .get(column.column as usize)
        {
            Some(it) => it.name.as_str(),
            None => "?",
        }
    }

    /// Adds a column, as `alias.column`.
    pub(crate) fn push_column(
        &self,
        text: &mut String,
        column: ColumnOf,
    ) -> Result<(), AllocError> {
        text.push_str(self.alias(usize::from(column.alias)))?;
        text.push_str(".")?;
        text.push_str(self.column_name(column))
    }

    /// The text of a conjunct.
    pub(crate) fn conjunct(&self, alloc: Global, number: usize) -> Result<String, AllocError> {
        let mut text = String::new(alloc);
        if let Some(it) = self.block.conjuncts.as_slice().get(number) {
            self.push_cond(alloc, &mut text, &it.cond)?;
        }
        Ok(text)
    }
}
