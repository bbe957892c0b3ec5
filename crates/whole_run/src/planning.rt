//! From what the words ask for to the plan of a run: that of a script over tables, or of the demo.

ghost use Rattle.std.specs.Prelude.{◌≡◌, true, Ok, Err, IfOk, IfErr, All, length};
ghost use Rattle.command_line.specs.Within.{IsTask, HasScansAlone};
ghost use Rattle.run_base.specs.Runnable.{IsRunnable};
ghost use Rattle.run_base.specs.Seen.{folder_seen};
ghost use Rattle.shared_eddy.specs.Sharing.{CanShare};
ghost use Rattle.run_plan.specs.Doing.{Went, Stopped};
ghost use Rattle.run_plan.specs.Open.{HasRemotes};
ghost use Rattle.run_plan.specs.Prepared.{predicates};
ghost use Rattle.run_answers.specs.Together.{blocks_in};
ghost use Rattle.whole_run.specs.Asked.{counts_in, loads_none};
ghost use Rattle.whole_run.specs.Outcome as spec;

use crate::asking::Request;
use command_line::Task;
use outside::Folder;
use run_plan::{Plan, Status, prepare, prepare_demo};
use sq_value::Predicates;
use std::alloc::Global;

/// The plan of what the words ask for. The demo loads no file.
///
/// # Errors
/// As `prepare` and `prepare_demo` have them.
pub fn plan_for<F: Folder, P: Predicates>(
    alloc: Global,
    request: &Request,
    folder: &mut F,
    functions: &P,
) -> Result<Plan, Status>
    requires { IsTask request.now.task }
    ensures went { let p = predicates (P.number_of functions.now) (P.kinds_of functions.now) P.gives in
        IfOk result (λ plan.
        Went (folder_seen (F.holds folder.old) (F.faults folder.old))
        (folder_seen (F.holds folder.new) (F.faults folder.new))
        (spec.AreTaskFiles request.now.task) (λ files. spec.IsRequested p request.now files (Ok plan))) }
    ensures run { IfOk result (λ plan.
        All (IsRunnable (P.kinds_of functions.now) plan.catalogue.tables) plan.statements) }
    ensures remotes { IfOk result HasRemotes }
    ensures scanned { HasScansAlone request.now.task → IfOk result (λ plan.
        CanShare (blocks_in plan.statements) plan.catalogue.tables) }
    ensures stopped { let p = predicates (P.number_of functions.now) (P.kinds_of functions.now) P.gives in
        IfErr result (λ s.
        Stopped (counts_in request.now.task) (folder_seen (F.holds folder.old) (F.faults folder.old))
        (folder_seen (F.holds folder.new) (F.faults folder.new))
        (spec.AreTaskFiles request.now.task) (λ files. spec.IsRequested p request.now files (Err s))
        (spec.ReachedFor request.now.task) s) }
    ensures untouched { loads_none request.now.task ≡ true → folder.new ≡ folder.old }
{
    match &request.task {
        Task::Query(query) => prepare(alloc, query, folder, functions),
        Task::Demo { rows } => prepare_demo(alloc, *rows, request.settings.seed, functions),
    }
}
