//! Groups by hash.
ghost use Rattle.std.specs.Prelude.{◌≡◌, IfOk};
ghost use Rattle.group_sink.specs.Dense.{numbered};

use indexmap::IndexSet;
use sq_value::Memory;
use std::alloc::Global;
use std::hash::Hash;

/// Numbers elements by kind: equal ones have one number, and the first of each kind has the number of
/// kinds before it. It takes time in proportion to their number.
///
/// # Errors
/// `Memory`: there is no memory for it.
pub(crate) fn number_all<K: Eq + Hash + Copy>(
    alloc: Global,
    items: &[K],
) -> Result<Vec<usize>, Memory>
    ensures { IfOk result (λ numbers. numbers.items ≡ numbered K.eq items.now) }
{
    let mut seen = IndexSet::new(alloc);
    let mut numbers = Vec::with_capacity(alloc, items.len())?;
    for item in items {
        let (number, _) = seen.insert_full(*item)?;
        numbers.push(number)?;
    }
    Ok(numbers)
}
