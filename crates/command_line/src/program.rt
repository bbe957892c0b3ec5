//! The command line as a command of `clap`.

ghost use Rattle.std.specs.Prelude.{◌≡◌, false, IfOk};
ghost use Rattle.clap.specs.Simple.{app_of, with_rule};
ghost use Rattle.clap.specs.Walk.{rule_of};
ghost use Rattle.command_line.specs.Program as spec;

use clap::{Arg, ArgAction, Command};
use std::alloc::{AllocError, Global};

/// The option `--NAME TEXT`.
fn option_named<'a>(alloc: Global, name: &'a str) -> Arg<'a>
    ensures rule { rule_of result ≡ spec.option_named name.entry.now }
    ensures own { result.global ≡ false }
{
    Arg::new(alloc, name).long(name)
}

/// The flag `--NAME`.
fn flag_named<'a>(alloc: Global, name: &'a str) -> Arg<'a>
    ensures rule { rule_of result ≡ spec.flag_named name.entry.now }
    ensures own { result.global ≡ false }
{
    Arg::new(alloc, name).long(name).action(ArgAction::SetTrue)
}

/// Any number of words that are no option's.
fn other_words<'a>(alloc: Global) -> Arg<'a>
    ensures rule { rule_of result ≡ spec.other_words }
    ensures own { result.global ≡ false }
{
    Arg::new(alloc, "words").num_args(0..)
}

/// The command without options, help and version, whose words don't begin with its name.
fn bare_program<'a>(alloc: Global) -> Command<'a>
    ensures { app_of result ≡ spec.bare_program }
{
    Command::new(alloc, "eddyql")
        .no_binary_name(true)
        .disable_help_flag(true)
        .disable_version_flag(true)
}

/// The command with an option more.
fn with_option<'a>(
    alloc: Global,
    command: Command<'a>,
    name: &'a str,
) -> Result<Command<'a>, AllocError>
    ensures { IfOk result (λ more. app_of more ≡ with_rule (app_of command.entry) (spec.option_named name.entry.now)) }
{
    command.arg(option_named(alloc, name))
}

/// The command with the options that say how to run.
fn with_settings<'a>(alloc: Global) -> Result<Command<'a>, AllocError>
    ensures { IfOk result (λ more. app_of more ≡ spec.with_settings) }
{
    let command = with_option(alloc, bare_program(alloc), "workers")?;
    let command = with_option(alloc, command, "policy")?;
    let command = with_option(alloc, command, "seed")?;
    let command = with_option(alloc, command, "route")?;
    with_option(alloc, command, "cache")
}

/// The same with the options that say how tables are reached.
fn with_reach<'a>(alloc: Global) -> Result<Command<'a>, AllocError>
    ensures { IfOk result (λ more. app_of more ≡ spec.with_reach) }
{
    let command = with_settings(alloc)?;
    let command = with_option(alloc, command, "index")?;
    let command = with_option(alloc, command, "lookup")?;
    with_option(alloc, command, "remote")
}

#[tactic(auto, unfolding(crate::specs::Program::program))]
/// The command line: its options, its flags, and any number of other words.
///
/// # Errors
/// There is no memory for the list of options.
pub fn program<'a>(alloc: Global) -> Result<Command<'a>, AllocError>
    ensures { IfOk result (λ command. app_of command ≡ spec.program) }
{
    let command = with_reach(alloc)?;
    let command = with_option(alloc, command, "demo")?;
    let command = command.arg(flag_named(alloc, "tally"))?;
    let command = command.arg(flag_named(alloc, "shared"))?;
    command.arg(other_words(alloc))
}
