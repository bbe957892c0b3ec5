//! The line of counts of a statement.

ghost use Rattle.std.specs.Prelude.{◌≡◌, IfOk, length};
ghost use Rattle.std.specs.String.{string_bytes};
ghost use Rattle.run_answers.specs.Tally as spec;

use bag_meaning::Built;
use eddy_core::CachedAnswer;
use std::alloc::{AllocError, Global};

// The number of rows of an alias that were built.
fn built_of(log: &[Built], alias: usize) -> usize
    ensures { result ≡ spec.built_of log.now alias }
{
    log.iter()
        .filter(|built| usize::from(built.alias) == alias)
        .count()
}

// A comma before each alias but the first.
fn comma_before(alias: usize) -> &'static str
    ensures { result.now ≡ spec.comma_before alias }
{
    if alias == 0 { "" } else { "," }
}

// The numbers of built rows of all aliases, with a comma between two.
fn built_text(alloc: Global, aliases: usize, log: &[Built]) -> Result<String, AllocError>
    ensures { IfOk result (λ text. string_bytes text ≡ spec.built_text aliases log.now) }
{
    let mut text = String::new(alloc);
    for alias in 0..aliases {
        let comma = comma_before(alias);
        let count = built_of(log, alias);
        text = format!(in alloc; "{text}{comma}{count}")?;
    }
    Ok(text)
}

// The hits as a line tells them: only with a cache, which has room.
fn hits_told(room: u32, hits: u64) -> Option<u64>
    ensures { result ≡ spec.hits_told room hits }
{
    if room == 0 { None } else { Some(hits) }
}

// What a line says of hits.
fn hits_text(alloc: Global, hits: Option<u64>) -> Result<String, AllocError>
    ensures { IfOk result (λ text. string_bytes text ≡ spec.hits_text hits) }
{
    match hits {
        Some(hits) => format!(in alloc; " hits {hits}"),
        None => Ok(String::new(alloc)),
    }
}

/// The line of counts of the statement with this number, by the record of its run: the rows that were
/// built of each of so many aliases, the most hops of a tuple, the number of keys that were looked up,
/// and the hits of its caches, where these have room.
///
/// # Errors
/// There is no memory for the line.
pub fn line_of_counts(
    alloc: Global,
    number: usize,
    aliases: usize,
    room: u32,
    cached: &CachedAnswer<'_>,
) -> Result<String, AllocError>
    ensures { IfOk result (λ line. string_bytes line ≡ spec.line_of_counts number aliases
        cached.now.answered.built.items cached.now.answered.most_hops
        (length cached.now.answered.looked.items) (spec.hits_told room cached.now.hits)) }
{
    let answered = &cached.answered;
    let log = answered.built.as_slice();
    let hops = answered.most_hops;
    let looked = answered.looked.len();
    let built = built_text(alloc, aliases, log)?;
    let hits = hits_text(alloc, hits_told(room, cached.hits))?;
    format!(in alloc; "query {number}: built {built} hops {hops} looked {looked}{hits}\n")
}
