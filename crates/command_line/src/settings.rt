//! The texts of the options that say how to run: numbers, the policy, the route script.

ghost use Rattle.std.specs.Prelude.{◌≡◌, ◌<◌, ◌≤◌, ◌^◌, Some, IfSome, option_map};
ghost use Rattle.std.specs.List.{list_all};
ghost use Rattle.std.specs.Char.{is_ascii_digit};
ghost use Rattle.std.specs.Result.{is_ok};
ghost use Rattle.route_policy.specs.ScriptReading.{script_of};
ghost use Rattle.command_line.specs.Answers.{Reads};
ghost use Rattle.command_line.specs.Settings as spec;

use crate::command::PolicyName;
use crate::fault::WordsFault;
use route_policy::RouteScript;
use sq_value::SqText;
use std::alloc::Global;

/// The most digits of a number.
const MAX_DIGITS: usize = 20;

/// The most workers.
const MAX_WORKERS: u64 = 16;

/// The most answers that a cache has room for.
const MAX_CACHE: u64 = 4096;

fn all_digits(text: &[u8]) -> bool
    ensures { result ≡ list_all is_ascii_digit text.now }
{
    text.iter().all(|byte| byte.is_ascii_digit())
}

fn is_number(text: &str) -> bool
    ensures { result ≡ spec.is_number text.now }
{
    !text.is_empty() && text.len() <= MAX_DIGITS && all_digits(text.as_bytes())
}

/// The number that 1 to 20 ASCII digits are, where it stands between two others.
pub fn number_between(least: u64, most: u64, text: &str) -> Option<u64>
    ensures { result ≡ spec.number_between least most text.now }
{
    if !is_number(text) {
        return None;
    }
    match text.parse::<u64>() {
        Ok(number) if least <= number && number <= most => Some(number),
        _ => None,
    }
}

fn number_or(other: u64, least: u64, most: u64, text: Option<&str>) -> Option<u64>
    ensures { result ≡ spec.number_or other least most (option_map (λ t. t.now) text.entry) }
{
    match text {
        Some(text) => number_between(least, most, text),
        None => Some(other),
    }
}

/// The number of workers, 1 to 16: 1 where none is given.
///
/// # Errors
/// `OutOfForm`: the text isn't such a number.
pub fn workers_of(text: Option<&str>) -> Result<u32, WordsFault>
    ensures { Reads (spec.workers_of (option_map (λ t. t.now) text.entry)) result }
{
    match number_or(1, 1, MAX_WORKERS, text) {
        Some(workers) => Ok(workers as u32),
        None => Err(WordsFault::OutOfForm),
    }
}

/// The seed, of 64 bits: 1 where none is given.
///
/// # Errors
/// `OutOfForm`: the text isn't such a number.
pub fn seed_of(text: Option<&str>) -> Result<u64, WordsFault>
    ensures { Reads (spec.seed_of (option_map (λ t. t.now) text.entry)) result }
{
    match number_or(1, 0, u64::MAX, text) {
        Some(seed) => Ok(seed),
        None => Err(WordsFault::OutOfForm),
    }
}

/// The room of a cache of predicates' answers, 0 to 4,096: 0, which is none, where it isn't given.
///
/// # Errors
/// `OutOfForm`: the text isn't such a number.
pub fn cache_of(text: Option<&str>) -> Result<u32, WordsFault>
    ensures { Reads (spec.cache_of (option_map (λ t. t.now) text.entry)) result }
{
    match number_or(0, 0, MAX_CACHE, text) {
        Some(room) => Ok(room as u32),
        None => Err(WordsFault::OutOfForm),
    }
}

fn policy_named(text: &str) -> Option<PolicyName>
    ensures { result ≡ spec.policy_named text.now }
{
    if text == "lottery" {
        Some(PolicyName::Lottery)
    } else if text == "pressure" {
        Some(PolicyName::Pressure)
    } else if text == "greedy" {
        Some(PolicyName::Greedy)
    } else if text == "script" {
        Some(PolicyName::Script)
    } else {
        None
    }
}

/// The policy: the lottery where none is given.
///
/// # Errors
/// `OutOfForm`: no policy has this name.
pub fn policy_of(text: Option<&str>) -> Result<PolicyName, WordsFault>
    ensures { Reads (spec.policy_of (option_map (λ t. t.now) text.entry)) result }
{
    let Some(text) = text else {
        return Ok(PolicyName::Lottery);
    };
    match policy_named(text) {
        Some(policy) => Ok(policy),
        None => Err(WordsFault::OutOfForm),
    }
}

fn is_route(text: &str) -> bool
    ensures { result ≡ is_ok (script_of text.now) }
{
    RouteScript::read(text).is_ok()
}

/// The text of the route script: the empty one where none is given.
///
/// # Errors
/// `OutOfForm`: the text is no route script.
/// `Memory`: there is no memory for a copy.
pub fn route_of(alloc: Global, text: Option<&str>) -> Result<SqText, WordsFault>
    ensures { Reads (spec.route_of (option_map (λ t. t.now) text.entry)) result }
{
    let Some(text) = text else {
        return Ok(SqText::of(alloc, "")?);
    };
    if is_route(text) {
        Ok(SqText::of(alloc, text)?)
    } else {
        Err(WordsFault::OutOfForm)
    }
}

/// Whether a flag is given.
pub fn is_flag_given(text: Option<&str>) -> bool
    ensures { result ≡ spec.is_flag_given (option_map (λ t. t.now) text.entry) }
{
    match text {
        Some(text) => text == "true",
        None => false,
    }
}
