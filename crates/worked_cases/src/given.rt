//! Combinations of rows, as an engine gives them, in another order than that of the product.
ghost use Rattle.std.specs.Prelude.{◌≡◌, IfOk, slice_index};
ghost use Rattle.worked_cases.specs.Ready.{Fall};

use bag_meaning::Combo;
use sq_value::Memory;
use std::alloc::Global;

/// The combination of a row of alias 0 and one of alias 1.
pub fn combo(first: u32, second: u32) -> Combo
    ensures { slice_index result.rows 0 ≡ first }
{
    let mut rows = [0; 12];
    rows[0] = first;
    rows[1] = second;
    Combo { rows, stamp: 0 }
}

/// These combinations, as far as the rows of alias 0 fall.
pub fn falling(alloc: Global, pairs: &[(u32, u32)]) -> Result<Vec<Combo>, Memory>
    ensures { IfOk result (λ combos. Fall combos.items) }
{
    let mut combos = Vec::new(alloc);
    let mut last = 100;
    for (first, second) in pairs {
        if *first < last {
            combos.push(combo(*first, *second))?;
            last = *first;
        }
    }
    Ok(combos)
}
