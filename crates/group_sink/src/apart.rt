//! DISTINCT: the first of each kind of equal lines.
ghost use Rattle.std.specs.Prelude.{◌≡◌, ◌==◌, ◌++◌, ◌∷◌, [], IfOk, OnOk, length, if◌then◌else◌};
ghost use Rattle.group_sink.specs.Cells.{is_same_line};
ghost use Rattle.group_sink.specs.Groups.{firsts};
ghost use Rattle.group_sink.specs.Dense.{numbered};
ghost use Rattle.group_sink.specs.Parts.{has_same_ranks};
ghost use Rattle.group_sink.specs.Picked.{met_first, kinds_from};
ghost use Rattle.group_sink.specs.Columns.{rank_in, cells_at};

use crate::column::Column;
use crate::part::refined;
use crate::sorting::keys_in;
use sq_value::Memory;
use std::alloc::Global;

/// Numbers groups by the cells of their lines: those with equal lines have one number.
fn line_numbers(
    alloc: Global,
    columns: &[Column<'_>],
    groups: &[usize],
) -> Result<Vec<usize>, Memory>
    ensures { IfOk result (λ numbers. numbers.items ≡ numbered (has_same_ranks rank_in columns.now) groups.now) }
{
    let mut numbers = vec![in alloc; 0usize; groups.len()]?;
    for column in columns {
        let keys = keys_in(alloc, column, groups)?;
        numbers = refined(alloc, numbers.as_slice(), keys.as_slice())?;
    }
    Ok(numbers)
}

/// Keeps a group where its number is met for the first time: it is how many were kept before.
fn keep_new(kept: &mut Vec<usize>, number: usize, group: usize) -> Result<(), Memory>
    ensures { OnOk result (kept.new.items
        ≡ kept.old.items ++ (if number == length kept.old.items then group ∷ [] else [])) }
{
    if number == kept.len() {
        kept.push(group)?;
    }
    Ok(())
}

/// The groups at which a number is met for the first time. Numbers begin with 0 and rise by one.
fn first_of_each(alloc: Global, numbers: &[usize], groups: &[usize]) -> Result<Vec<usize>, Memory>
    requires { length numbers.now ≡ length groups.now }
    ensures { IfOk result (λ kept. kept.items ≡ met_first 0 numbers.now groups.now) }
{
    let mut kept = Vec::new(alloc);
    for (place, number) in numbers.iter().enumerate() {
        keep_new(&mut kept, *number, groups[place])?;
    }
    Ok(kept)
}

/// How many numbers there are. Numbers begin with 0 and rise by one.
pub(crate) fn count_kinds(numbers: &[usize]) -> usize
    ensures { result ≡ kinds_from 0 numbers.now }
{
    let mut kinds = 0usize;
    for number in numbers {
        if *number == kinds {
            kinds += 1;
        }
    }
    kinds
}

/// The groups whose lines differ from all earlier ones in some cell.
///
/// # Errors
/// `Memory`: there is no memory for it.
pub(crate) fn groups_apart(
    alloc: Global,
    columns: &[Column<'_>],
    groups: &[usize],
) -> Result<Vec<usize>, Memory>
    ensures { IfOk result (λ kept. kept.items
        ≡ firsts (λ x y. is_same_line (cells_at columns.now x) (cells_at columns.now y)) groups.now) }
{
    let numbers = line_numbers(alloc, columns, groups)?;
    first_of_each(alloc, numbers.as_slice(), groups)
}
