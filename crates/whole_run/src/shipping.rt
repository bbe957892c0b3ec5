//! The program as it is shipped: with `divides`, `same_sign` and `near10` as its predicates.

ghost use Rattle.std.specs.Prelude.{◌≡◌, ◌++◌, ◌∷◌, [], ◌<◌, false, length, IfOk, OnOk, OnErr, map, drop};
ghost use Rattle.std.specs.Process.{exit_status};
ghost use Rattle.std.specs.String.{string_bytes};
ghost use Rattle.fn_registry.specs.Registry.{is_taken};
ghost use Rattle.fn_registry.specs.Signatures.{signatures};
ghost use Rattle.run_base.specs.Seen.{world_seen};
ghost use Rattle.whole_run.specs.Headline.{HeadlineByCode};
ghost use Rattle.whole_run.specs.Shipped.{shipped_predicates};

use crate::host::Host;
use crate::program::{code_for, program};
use crate::run::note;
use eddy_worker::Gate;
use fn_registry::{
    AddFault, Functions, Registered, SHIPPED, ShippedFunctions, Stored, divides, near10, same_sign,
};
use outside::{Folder, Sink};
use run_base::Outputs;
use run_plan::Status;
use sq_value::{ColType, Kinds, Memory, SqText, Value};
use std::alloc::Global;
use std::process::ExitCode;
use std::sync::Wait;
use std::thread::Threads;

/// Both arguments are integers.
const INTEGERS: Kinds = Kinds {
    first: ColType::Integer,
    second: ColType::Integer,
};

// Adds a predicate whose name and number aren't there, where there is room.
fn put<const M: u32>(functions: &mut Functions<M>, item: Registered<M>) -> Result<(), Memory>
    requires room { length (signatures functions.old) < 32 }
    requires fresh { is_taken (signatures functions.old) item.signature.name item.signature.number ≡ false }
    ensures { OnOk result (signatures functions.new ≡ signatures functions.old ++ item.entry.signature ∷ []) }
{
    match functions.add(item) {
        Ok(()) => Ok(()),
        Err(AddFault::Memory) => Err(Memory),
        Err(AddFault::RepeatedName | AddFault::Full) => unreachable!(),
    }
}

// Registers the predicates, and runs the words over them.
#[tactic(auto, unfolding(fn_registry::specs::Meaning::gives_of))]
fn run_shipped<F: Folder, O: Sink, N: Sink, G: Gate, R: Threads + Wait + Sync>(
    host: &Host<'_, G, R>,
    words: &[String],
    folder: &mut F,
    outputs: &mut Outputs<O, N>,
) -> Result<ExitCode, Memory>
    ensures headline { IfOk result (λ code. HeadlineByCode shipped_predicates (drop 1 (map string_bytes words.now))
        folder.old folder.new (world_seen (F.holds folder.old) (F.faults folder.old) outputs.old)
        (world_seen (F.holds folder.new) (F.faults folder.new) outputs.new) (exit_status code)) }
    ensures untouched { OnErr result ((folder.new ≡ folder.old) × (outputs.new ≡ outputs.old)) }
{
    let mut functions: Functions<SHIPPED> = Functions::new(host.alloc);
    let answer: Stored = Box::new(host.alloc, |x: &Value, y: &Value| divides(x, y))?;
    let name = SqText::of(host.alloc, "divides")?;
    put(&mut functions, Registered::new(name, 0, INTEGERS, answer))?;
    let answer: Stored = Box::new(host.alloc, |x: &Value, y: &Value| same_sign(x, y))?;
    let name = SqText::of(host.alloc, "same_sign")?;
    put(&mut functions, Registered::new(name, 1, INTEGERS, answer))?;
    let answer: Stored = Box::new(host.alloc, |x: &Value, y: &Value| near10(x, y))?;
    let name = SqText::of(host.alloc, "near10")?;
    put(&mut functions, Registered::new(name, 2, INTEGERS, answer))?;
    let functions = ShippedFunctions(functions);
    Ok(program(host, &functions, words, folder, outputs))
}

/// Runs the words that the program was started with over the shipped predicates, and answers the
/// code that it ends with: that of [`program`], or, where there is no memory for the predicates,
/// that of want of memory, with its note.
pub fn program_as_shipped<F: Folder, O: Sink, N: Sink, G: Gate, R: Threads + Wait + Sync>(
    host: &Host<'_, G, R>,
    words: &[String],
    folder: &mut F,
    outputs: &mut Outputs<O, N>,
) -> ExitCode
    // All that `run` promises of the words behind the name, over the shipped predicates, with a status whose code this
    // is.
    ensures headline { HeadlineByCode shipped_predicates (drop 1 (map string_bytes words.now)) folder.old folder.new
        (world_seen (F.holds folder.old) (F.faults folder.old) outputs.old)
        (world_seen (F.holds folder.new) (F.faults folder.new) outputs.new) (exit_status result) }
{
    match run_shipped(host, words, folder, outputs) {
        Ok(code) => code,
        Err(Memory) => code_for(note(host.alloc, &[], &[], Status::Memory, outputs)),
    }
}
