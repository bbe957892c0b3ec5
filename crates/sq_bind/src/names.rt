//! The aliases of FROM so far, as a set of names in lower case.

ghost use Rattle.std.specs.Prelude.{◌≡◌, [], ◌∷◌, ◌++◌, List, IfOk, OnOk};
ghost use Rattle.std.specs.List.{list_any};
ghost use Rattle.sq_value.specs.Name.{is_same_name};
ghost use Rattle.sq_parse.specs.declared.tree.Source.{Source};
ghost use Rattle.sq_bind.specs.Repeated.{HoldsNames};

use sq_parse::Name;
use sq_value::Memory;
use std::alloc::Global;
use std::collections::BTreeSet;

/// Names in lower case. They are kept in order, so that no choice of names makes a look-up slow.
pub type Names = BTreeSet<String>;

/// Puts the alias of a source among those of the sources before it, and tells whether one of them has
/// the same name.
///
/// # Errors
/// `Memory`: there is no memory for the name.
pub fn put_alias(alloc: Global, names: &mut Names, alias: &Name) -> Result<bool, Memory>
    ensures told { (front : List Source) → HoldsNames names.old front
        → IfOk result (λ repeated. repeated ≡ list_any (λ s. is_same_name s.alias.text alias.now.text) front) }
    ensures put { (front : List Source) (source : Source) → source.alias ≡ alias.now → HoldsNames names.old front
        → OnOk result (HoldsNames names.new (front ++ source ∷ [])) }
{
    let lower = alias.text.as_str().to_ascii_lowercase(alloc)?;
    let is_new = names.insert(lower)?;
    Ok(!is_new)
}
