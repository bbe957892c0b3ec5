//! eddyql: reads a script of queries and CSV files named as tables, and writes each query's
//! answer as CSV.
#![tactic(auto)]

ghost use Rattle.std.specs.Prelude.{◌≡◌, ◌⊎◌};

use eddy_worker::NoGate;
use outside::{RealFolder, RealSink};
use run_base::Outputs;
use run_notes::put_note;
use run_plan::Status;
use std::io;
use std::process::ExitCode;
use std::rt::Env;
use whole_run::program::{all_words, code_for};
use whole_run::{Host, program_as_shipped};

// The words that the program was started with.
fn given_words(rt: &(impl Env + AllocGlobal)) -> io::Result<Vec<String>> {
    Ok(all_words(rt.alloc(), std::env::args(rt)?)?)
}

// The status of words that couldn't be had: want of memory, or a word that isn't UTF-8.
fn status_without_words(error: &io::Error) -> Status
    ensures { (result ≡ Status.Memory) ⊎ (result ≡ Status.Usage) }
{
    match error.kind() {
        io::ErrorKind::OutOfMemory => Status::Memory,
        _ => Status::Usage,
    }
}

fn main(rt: HostRuntime) -> ExitCode {
    let mut notes = RealSink::new(rt.stderr());
    match given_words(&rt) {
        Ok(words) => {
            let host = Host {
                rt: &rt,
                alloc: rt.alloc(),
                gate: &NoGate,
            };
            let mut folder = RealFolder::new(&rt);
            let mut outputs = Outputs {
                out: RealSink::new(rt.stdout()),
                notes,
            };
            program_as_shipped(&host, &words, &mut folder, &mut outputs)
        }
        Err(error) => {
            let status = status_without_words(&error);
            code_for(put_note(rt.alloc(), &[], &[], status, &mut notes))
        }
    }
}
