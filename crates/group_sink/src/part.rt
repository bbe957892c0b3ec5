//! Elements by their keys, one key after another.
ghost use Rattle.std.specs.Prelude.{◌≡◌, IfOk, length, map};
ghost use Rattle.group_sink.specs.Dense.{numbered};
ghost use Rattle.group_sink.specs.Parts.{is_same_part, is_same_pair, seen_part, pairs, rank_kept};

use crate::grouping::number_all;
use sq_value::{Key, Memory, key_laws};
use std::alloc::Global;
use std::hash::Hash;

/// An element's group by the keys so far, and its next key.
#[derive(Clone, Copy, Debug, PartialEq, Eq, Hash)]
pub(crate) struct Part<'t> {
    pub group: usize,
    pub key: Option<Key<'t>>,
}

/// Numbers elements by group so far and next key.
///
/// # Errors
/// `Memory`: there is no memory for it.
pub(crate) fn number_parts(alloc: Global, parts: &[Part<'_>]) -> Result<Vec<usize>, Memory>
    ensures { IfOk result (λ numbers. numbers.items ≡ numbered is_same_part parts.now) }
{
    key_laws();
    number_all(alloc, parts)
}

/// Elements by group so far and next key.
fn parts_of<'t>(
    alloc: Global,
    numbers: &[usize],
    keys: &[Option<Key<'t>>],
) -> Result<Vec<Part<'t>>, Memory>
    requires { length numbers.now ≡ length keys.now }
    ensures { IfOk result (λ parts. map seen_part parts.items ≡ pairs numbers.now (map rank_kept keys.now)) }
{
    let mut parts = Vec::with_capacity(alloc, keys.len())?;
    for (place, key) in keys.iter().enumerate() {
        let group = numbers[place];
        parts.push(Part { group, key: *key })?;
    }
    Ok(parts)
}

/// Numbers elements by one key more. It takes time in proportion to their number.
///
/// # Errors
/// `Memory`: there is no memory for it.
pub(crate) fn refined(
    alloc: Global,
    numbers: &[usize],
    keys: &[Option<Key<'_>>],
) -> Result<Vec<usize>, Memory>
    requires { length numbers.now ≡ length keys.now }
    ensures { IfOk result (λ numbers'. numbers'.items
        ≡ numbered is_same_pair (pairs numbers.now (map rank_kept keys.now))) }
{
    let parts = parts_of(alloc, numbers, keys)?;
    number_parts(alloc, parts.as_slice())
}
