//! Which statements are shaped.

ghost use Rattle.std.specs.Prelude.{◌≡◌};
ghost use Rattle.sq_parse.specs.Shaped as spec;

use crate::tree::{Item, Items, Statement};

// Whether an item is an aggregate.
fn is_aggregate(item: &Item) -> bool
    ensures { result ≡ spec.is_aggregate item.now }
{
    match item {
        Item::AllOf(_) | Item::Col(_, _) => false,
        Item::Agg { .. } => true,
    }
}

// Whether one of some items is an aggregate.
fn have_aggregate(mut items: &[Item]) -> bool
    ensures { result ≡ spec.have_aggregate items.entry.now }
{
    while let [item, rest @ ..] = items {
        if is_aggregate(item) {
            return true;
        }
        items = rest;
    }
    false
}

/// Whether a statement is grouped: it has an aggregate or GROUP BY.
pub fn is_grouped(statement: &Statement) -> bool
    ensures { result ≡ spec.is_grouped statement.now }
{
    let has_aggregate = match &statement.items {
        Items::Star => false,
        Items::List(items) => have_aggregate(items.as_slice()),
    };
    has_aggregate || !statement.groups.is_empty()
}

/// Whether a statement is shaped: it has an aggregate, GROUP BY, DISTINCT or LIMIT.
pub fn is_shaped(statement: &Statement) -> bool
    ensures { result ≡ spec.is_shaped statement.now }
{
    is_grouped(statement) || statement.distinct || statement.limit.is_some()
}
