//! What `clap` finds in the words.

ghost use Rattle.std.specs.Prelude.{◌≡◌, ◌≢◌, true, false, IfOk, IfErr, map, option_map};
ghost use Rattle.std.specs.String.{string_bytes};
ghost use Rattle.clap.specs.Matches.{found_of};
ghost use Rattle.clap.specs.Simple.{matches_of};
ghost use Rattle.clap.specs.Takes.{takes};
ghost use Rattle.clap.specs.Values.{kind_of};
ghost use Rattle.clap.specs.Walk.{rows_of, first_of};
ghost use Rattle.command_line.specs.Program as spec;

use crate::fault::WordsFault;
use crate::program::program;
use clap::error::ErrorKind;
use clap::{ArgMatches, Error};
use std::alloc::Global;

fn fault_of(error: &Error) -> WordsFault
    ensures form { result ≡ WordsFault.OutOfForm → kind_of error.now ≢ ErrorKind.OutOfMemory }
    ensures memory { result ≡ WordsFault.Memory → kind_of error.now ≡ ErrorKind.OutOfMemory }
{
    match error.kind() {
        ErrorKind::OutOfMemory => WordsFault::Memory,
        _ => WordsFault::OutOfForm,
    }
}

/// What `clap` finds in the words, where it takes them.
///
/// # Errors
/// `OutOfForm`: it doesn't take them.
/// `Memory`: there is no memory for what it finds.
pub fn find_matches<'a>(alloc: Global, words: &'a [String]) -> Result<ArgMatches<'a>, WordsFault>
    ensures taken { IfOk result (λ m. takes spec.program (map string_bytes words.entry.now) ≡ true) }
    ensures found { IfOk result (λ m. rows_of (found_of m) ≡ matches_of spec.program (map string_bytes
        words.entry.now)) }
    ensures refused { IfErr result (λ e. e ≡ WordsFault.OutOfForm → takes spec.program (map string_bytes
        words.entry.now) ≡ false) }
{
    let Ok(program) = program(alloc) else {
        return Err(WordsFault::Memory);
    };
    match program.try_get_matches_from(words) {
        Ok(matches) => Ok(matches),
        Err(error) => Err(fault_of(&error)),
    }
}

/// The text of an option that is given.
pub fn text_of<'a>(matches: &ArgMatches<'a>, name: &str) -> Option<&'a str>
    ensures { option_map (λ t. t.now) result ≡ first_of name.now (rows_of (found_of matches.now)) }
{
    matches.get_str(name)
}
