//! Adding predicates to those of a program.
ghost use Rattle.std.specs.Prelude.{◌≡◌, ◌++◌, ◌∷◌, [], ◌≤◌, true, false, length, map, Err, OnOk, OnErr};
ghost use Rattle.std.specs.List.{list_any};
ghost use Rattle.fn_registry.specs.Registry.{is_taken};
ghost use Rattle.fn_registry.specs.Registry as spec;
ghost use Rattle.fn_registry.specs.Signatures.{signatures, stored};

use crate::fault::AddFault;
use crate::functions::Functions;
use crate::registered::Registered;
use sq_value::same_name;
use std::alloc::Global;

/// The most predicates.
const MAX_PREDICATES: usize = 32;

fn has_name<const M: u32>(items: &[Registered<M>], name: &str) -> bool
    ensures { result ≡ list_any (spec.is_of_name name.now) (map (λ r. r.signature) items.now) }
{
    match items {
        [item, rest @ ..] => {
            same_name(item.signature.name.as_str(), name) || has_name(rest, name)
        }
        [] => false,
    }
}

fn has_number<const M: u32>(items: &[Registered<M>], number: u8) -> bool
    ensures { result ≡ list_any (spec.is_of_number number) (map (λ r. r.signature) items.now) }
{
    match items {
        [item, rest @ ..] => item.signature.number == number || has_number(rest, number),
        [] => false,
    }
}

impl<const M: u32> Functions<M> {
    /// No predicates.
    pub fn new(alloc: Global) -> Functions<M>
        ensures { signatures result ≡ [] }
    {
        Functions {
            items: Vec::new(alloc),
        }
    }

    /// Adds a predicate behind the others.
    ///
    /// # Errors
    /// `RepeatedName`: its name, but for the case of ASCII letters, or its number is there.
    /// `Full`: they aren't, and 32 predicates are there.
    /// `Memory`: neither is so, and there is no memory for its place.
    /// The predicates are then unchanged, and the new one is dropped.
    pub fn add(&mut self, item: Registered<M>) -> Result<(), AddFault>
        ensures added { OnOk result (signatures self.new ≡ signatures self.old ++ item.entry.signature ∷ []) }
        ensures fresh { OnOk result (is_taken (signatures self.old) item.entry.signature.name
            item.entry.signature.number ≡ false) }
        ensures few { OnOk result (length (signatures self.old) ≤ 31) }
        ensures repeated { result ≡ Err AddFault.RepeatedName → is_taken (signatures self.old)
            item.entry.signature.name item.entry.signature.number ≡ true }
        ensures full { result ≡ Err AddFault.Full → 32 ≤ length (signatures self.old) }
        ensures not_repeated { result ≡ Err AddFault.Full → is_taken (signatures self.old)
            item.entry.signature.name item.entry.signature.number ≡ false }
        ensures memory { result ≡ Err AddFault.Memory → is_taken (signatures self.old)
            item.entry.signature.name item.entry.signature.number ≡ false }
        ensures memory_few { result ≡ Err AddFault.Memory → length (signatures self.old) ≤ 31 }
        ensures unchanged { OnErr result (stored self.new ≡ stored self.old) }
    {
        let taken = has_name(&self.items, item.signature.name.as_str())
            || has_number(&self.items, item.signature.number);
        if taken {
            return Err(AddFault::RepeatedName);
        }
        if self.items.len() >= MAX_PREDICATES {
            return Err(AddFault::Full);
        }
        self.items.push(item)?;
        Ok(())
    }
}
