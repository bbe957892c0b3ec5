//! eddyql_show: what is around a run of eddyql. It shows the columns of tables, and pictures of the
//! eddy at work.
#![tactic(auto)]

use outside::{RealFolder, RealSink, Sink};
use show_parts::{Refusal, read_words, show_shipped};
use std::alloc::Global;
use std::process::ExitCode;
use std::rt::{Env, Files};
use std::{fs, io};

/// The line that says the words, as the launcher takes them.
const USAGE: &str =
    "usage: eddyql tables TABLE.. or eddyql show [--json] or eddyql explain [--svg FILE] [OPTIONS] \
     SCRIPT TABLE..\n";

// Puts a text to an output.
fn put<O: Sink>(out: &mut O, text: &str) -> Result<(), Refusal> {
    match out.put(text.as_bytes()) {
        Ok(()) => Ok(()),
        Err(_) => Err(Refusal::Output),
    }
}

// Why there are no words: want of memory, or one that isn't UTF-8.
fn refusal_without_words(error: &io::Error) -> Refusal {
    match error.kind() {
        io::ErrorKind::OutOfMemory => Refusal::Memory,
        _ => Refusal::Words,
    }
}

// All words, in order.
fn given_words<R: Env + AllocGlobal>(rt: &R) -> Result<Vec<String>, Refusal> {
    let given = match std::env::args(rt) {
        Ok(given) => given,
        Err(error) => return Err(refusal_without_words(&error)),
    };
    let mut all = Vec::new(rt.alloc());
    for word in given {
        all.push(word)?;
    }
    Ok(all)
}

// Does what the words ask for, the first of which is the program's own name.
fn run<R: Files, O: Sink, N: Sink>(
    rt: &R,
    alloc: Global,
    words: &[String],
    out: &mut O,
    notes: &mut N,
) -> Result<(), Refusal> {
    let Some(asked) = read_words(words) else {
        return Err(Refusal::Words);
    };
    let mut folder = RealFolder::new(rt);
    let shown = show_shipped(alloc, asked, &mut folder, notes)?;
    if let (Some(file), Some(svg)) = (asked.svg, &shown.svg) {
        if fs::write(rt, file, svg.as_str()).is_err() {
            return Err(Refusal::Output);
        }
    }
    put(out, shown.text.as_str())
}

// Says on standard error why nothing is shown, where that isn't said yet.
fn tell<N: Sink>(notes: &mut N, refusal: Refusal) {
    let line = match refusal {
        Refusal::Words => USAGE,
        Refusal::Noted(_) => return,
        Refusal::Memory => "out of memory\n",
        Refusal::Output => "write fault\n",
    };
    // (what it answers is not asked for here)
    let _told = notes.put(line.as_bytes());
}

fn main(rt: HostRuntime) -> ExitCode {
    let mut out = RealSink::new(rt.stdout());
    let mut notes = RealSink::new(rt.stderr());
    let shown = match given_words(&rt) {
        Ok(words) => run(&rt, rt.alloc(), words.as_slice(), &mut out, &mut notes),
        Err(refusal) => Err(refusal),
    };
    match shown {
        Ok(()) => ExitCode::from(0),
        Err(refusal) => {
            tell(&mut notes, refusal);
            ExitCode::from(refusal.code())
        }
    }
}
