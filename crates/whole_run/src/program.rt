//! The program over any folder and outputs: from the words that it was started with to the code
//! that it ends with.

ghost use Rattle.std.specs.Prelude.{◌≡◌, IfOk, map, drop};
ghost use Rattle.std.specs.Process.{exit_status};
ghost use Rattle.std.specs.String.{string_bytes};
ghost use Rattle.std.specs.Vec.Iter.{into_iter_items};
ghost use Rattle.run_base.specs.Seen.{world_seen};
ghost use Rattle.run_plan.specs.Prepared.{predicates};
ghost use Rattle.run_plan.specs.Stage.{stage_of, code_of};
ghost use Rattle.whole_run.specs.Headline.{HeadlineByCode};

use crate::host::Host;
use crate::run::run;
use eddy_worker::Gate;
use outside::{Folder, Sink};
use run_base::Outputs;
use run_plan::Status;
use sq_value::Predicates;
use std::alloc::{AllocError, Global};
use std::env::Args;
use std::process::ExitCode;
use std::sync::Wait;
use std::thread::Threads;

/// All words, in order.
///
/// # Errors
/// There is no memory for the list.
pub fn all_words(alloc: Global, words: Args) -> Result<Vec<String>, AllocError>
    ensures { IfOk result (λ all. all.items ≡ into_iter_items words) }
{
    let mut all = Vec::new(alloc);
    for word in words {
        all.push(word)?;
    }
    Ok(all)
}

/// The exit code of a run that ended so.
pub fn code_for(status: Status) -> ExitCode
    ensures { exit_status result ≡ code_of (stage_of status) }
{
    ExitCode::from(status.code())
}

// The words behind the first, which is the program's own name.
fn behind_name(words: &[String]) -> &[String]
    ensures { map string_bytes result.now ≡ drop 1 (map string_bytes words.now) }
{
    match words {
        [_, rest @ ..] => rest,
        [] => words,
    }
}

/// Runs the words that the program was started with, the first of which is its own name, and
/// answers the code that it ends with.
///
/// Every word behind the name is handed to [`run`], and the code is that of the run's status.
pub fn program<
    F: Folder,
    O: Sink,
    N: Sink,
    P: Predicates + Sync,
    G: Gate,
    R: Threads + Wait + Sync,
>(
    host: &Host<'_, G, R>,
    functions: &P,
    words: &[String],
    folder: &mut F,
    outputs: &mut Outputs<O, N>,
) -> ExitCode
    // All that `run` promises of the words behind the name, with a status whose code this is.
    ensures headline { let p = predicates (P.number_of functions.now) (P.kinds_of functions.now) P.gives in
        HeadlineByCode p (drop 1 (map string_bytes words.now)) folder.old folder.new
        (world_seen (F.holds folder.old) (F.faults folder.old) outputs.old)
        (world_seen (F.holds folder.new) (F.faults folder.new) outputs.new) (exit_status result) }
{
    let words = behind_name(words);
    code_for(run(host, functions, words, folder, outputs))
}
