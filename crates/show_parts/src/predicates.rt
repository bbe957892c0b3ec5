//! The predicates of the program as it is shipped, and what is shown with them.

ghost use Rattle.std.specs.Prelude.{◌≡◌, ◌++◌, ◌∷◌, [], ◌<◌, false, length, OnOk};
ghost use Rattle.fn_registry.specs.Registry.{is_taken};
ghost use Rattle.fn_registry.specs.Signatures.{signatures};

use crate::refusal::Refusal;
use crate::showing::{Shown, show};
use crate::words::Asked;
use fn_registry::{
    AddFault, Functions, Registered, SHIPPED, ShippedFunctions, Stored, divides, near10, same_sign,
};
use outside::{Folder, Sink};
use sq_value::{ColType, Kinds, Memory, SqText, Value};
use std::alloc::Global;

/// The names of the predicates, in the order of their numbers.
pub(crate) const NAMES: [&str; 3] = ["divides", "same_sign", "near10"];

/// Both arguments are integers.
const INTEGERS: Kinds = Kinds {
    first: ColType::Integer,
    second: ColType::Integer,
};

// Adds a predicate whose name and number aren't there, where there is room.
fn put<const M: u32>(functions: &mut Functions<M>, item: Registered<M>) -> Result<(), Memory>
    requires room { length (signatures functions.old) < 32 }
    requires fresh { is_taken (signatures functions.old) item.signature.name item.signature.number ≡ false }
    ensures { OnOk result (signatures functions.new ≡ signatures functions.old ++ item.entry.signature ∷ []) }
{
    match functions.add(item) {
        Ok(()) => Ok(()),
        Err(AddFault::Memory) => Err(Memory),
        Err(AddFault::RepeatedName | AddFault::Full) => unreachable!(),
    }
}

/// What words ask for, with the predicates of eddyql. Where the script or a table is refused the notes say why.
///
/// # Errors
/// The words aren't of the form; the script or a table is refused; or there is no memory.
#[tactic(auto, unfolding(fn_registry::specs::Meaning::gives_of))]
pub fn show_shipped<F: Folder, N: Sink>(
    alloc: Global,
    asked: Asked<'_>,
    folder: &mut F,
    notes: &mut N,
) -> Result<Shown, Refusal> {
    let mut functions: Functions<SHIPPED> = Functions::new(alloc);
    let answer: Stored = Box::new(alloc, |x: &Value, y: &Value| divides(x, y))?;
    let name = SqText::of(alloc, "divides")?;
    put(&mut functions, Registered::new(name, 0, INTEGERS, answer))?;
    let answer: Stored = Box::new(alloc, |x: &Value, y: &Value| same_sign(x, y))?;
    let name = SqText::of(alloc, "same_sign")?;
    put(&mut functions, Registered::new(name, 1, INTEGERS, answer))?;
    let answer: Stored = Box::new(alloc, |x: &Value, y: &Value| near10(x, y))?;
    let name = SqText::of(alloc, "near10")?;
    put(&mut functions, Registered::new(name, 2, INTEGERS, answer))?;
    let functions = ShippedFunctions(functions);
    show(alloc, asked, &functions, folder, notes)
}
