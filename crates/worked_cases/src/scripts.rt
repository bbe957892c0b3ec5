//! Scripts and what sq_parse says of them. A case is a line: what is asked, a bar, and what is wanted.

ghost use Rattle.std.specs.Prelude.{◌<◌, length};

use sq_parse::{ParseFault, parse, tokens};
use std::alloc::Global;
use std::test::Fail;

mod faults;
mod tokens;
mod trees;

/// The script whose fronts are tried.
const BIG_SPENDERS: &str = "-- big spenders\n\
    select p.name as who, o.total from people p join orders o on o.person = p.id \
    where o.total between 50 and 200 and p.city is not null order by o.total desc, who;";

/// What is asked of the text of a case.
#[derive(Clone, Copy)]
enum Asked {
    /// `tree`, or the fault and its place, of a front, a piece that follows so often, and an end.
    Answer,
    /// The tree of a script.
    Tree,
    /// The tree of a condition behind `SELECT x FROM n WHERE `.
    Condition,
    /// The tokens.
    Tokens,
}

fn name_of(fault: ParseFault) -> &'static str {
    match fault {
        ParseFault::NotUtf8 { .. } => "NotUtf8",
        ParseFault::Syntax { .. } => "Syntax",
        ParseFault::NumberTooLarge { .. } => "NumberTooLarge",
        ParseFault::TooDeep { .. } => "TooDeep",
        ParseFault::TooManyStatements { .. } => "TooManyStatements",
        ParseFault::Memory => "Memory",
    }
}

fn place_of(fault: ParseFault) -> u32 {
    match fault {
        ParseFault::NotUtf8 { at }
        | ParseFault::Syntax { at }
        | ParseFault::NumberTooLarge { at }
        | ParseFault::TooDeep { at }
        | ParseFault::TooManyStatements { at } => at,
        ParseFault::Memory => 0,
    }
}

fn answer(alloc: Global, text: &[u8]) -> Result<String, Fail>
    requires { length text.now < 4294967295 }
{
    match parse(alloc, text) {
        Ok(_script) => Ok(String::from_str(alloc, "tree")?),
        Err(fault) => Ok(format!(in alloc; "{} {}", name_of(fault), place_of(fault))?),
    }
}

fn tree(alloc: Global, text: &[u8]) -> Result<String, Fail>
    requires { length text.now < 4294967295 }
{
    match parse(alloc, text) {
        Ok(script) => Ok(format!(in alloc; "{script:?}")?),
        Err(fault) => Ok(format!(in alloc; "{fault:?}")?),
    }
}

// The tokens of a text, each from its first byte up to its end, and what it is.
fn shown(alloc: Global, text: &str) -> Result<String, Fail>
    requires { length text.now < 4294967295 }
{
    let found = tokens(alloc, text)?;
    let mut shown = String::new(alloc);
    for token in found.iter() {
        let (from, to, kind) = (token.span.from, token.span.to, &token.kind);
        shown.push_str(format!(in alloc; "{from}-{to} {kind:?}, ")?.as_str())?;
    }
    Ok(shown)
}

// A front, and where more is written, a piece so often and an end.
fn repeated(alloc: Global, case: &str) -> Result<String, Fail> {
    let mut parts = case.split('|');
    let mut text = String::from_str(alloc, parts.next().unwrap_or(""))?;
    let piece = parts.next().unwrap_or("");
    let times: u8 = parts.next().unwrap_or("").parse().unwrap_or(0);
    for _ in 0..times {
        text.push_str(piece)?;
    }
    text.push_str(parts.next().unwrap_or(""))?;
    Ok(text)
}

// The text that a case asks about.
fn text_of(alloc: Global, asked: Asked, case: &str) -> Result<String, Fail> {
    match asked {
        Asked::Answer => repeated(alloc, case),
        Asked::Condition => Ok(format!(in alloc; "SELECT x FROM n WHERE {case}")?),
        Asked::Tree | Asked::Tokens => Ok(String::from_str(alloc, case)?),
    }
}

fn told(alloc: Global, asked: Asked, text: &str) -> Result<String, Fail>
    requires { length text.now < 4294967295 }
{
    match asked {
        Asked::Answer => answer(alloc, text.as_bytes()),
        Asked::Tree | Asked::Condition => tree(alloc, text.as_bytes()),
        Asked::Tokens => shown(alloc, text),
    }
}

// What is wanted, as it is told.
fn wanted(alloc: Global, asked: Asked, want: &str) -> Result<String, Fail> {
    match asked {
        Asked::Condition => {
            let (front, end) = trees::AROUND;
            Ok(format!(in alloc; "{front}{want}{end}")?)
        }
        _ => Ok(String::from_str(alloc, want)?),
    }
}

fn is_right(alloc: Global, asked: Asked, case: &str, want: &str) -> Result<bool, Fail> {
    let text = text_of(alloc, asked, case)?;
    if text.len() > 9999 {
        return Ok(false);
    }
    let told = told(alloc, asked, text.as_str())?;
    Ok(told.as_str() == wanted(alloc, asked, want)?.as_str())
}

// The first of these cases that isn't right, or nothing.
fn wrong_case(alloc: Global, asked: Asked, cases: &'static str) -> Result<&'static str, Fail> {
    for line in cases.lines() {
        let (case, want) = line.rsplit_once(" | ").unwrap_or(("", "no bar"));
        if !is_right(alloc, asked, case, want)? {
            return Ok(line);
        }
    }
    Ok("")
}

#[test]
fn scripts_are_told(rt: HostRuntime) -> Result<(), Fail> {
    let all = [
        (Asked::Answer, faults::ANSWERS),
        (Asked::Answer, faults::PLACES),
        (Asked::Answer, faults::SHAPES),
        (Asked::Answer, faults::LIMITS),
        (Asked::Tree, trees::SCRIPTS),
        (Asked::Condition, trees::CONDITIONS),
        (Asked::Tokens, tokens::TEXTS),
    ];
    for (asked, cases) in all {
        assert_eq!(rt; wrong_case(rt.alloc(), asked, cases)?, "");
    }
    Ok(())
}

// The first of the texts that don't stand in a line whose answer is another, or nothing.
fn wrong_text(alloc: Global) -> Result<&'static str, Fail> {
    let texts: [(&[u8], &str); 5] = [
        (b"", "Syntax 0"),
        (b"  ", "Syntax 2"),
        (b" \t\r\n", "Syntax 4"),
        (b"\xEF\xBB\xBFSELECT x FROM n", "Syntax 0"),
        (b"S\xff", "NotUtf8 1"),
    ];
    for (text, want) in texts {
        if answer(alloc, text)?.as_str() != want {
            return Ok(want);
        }
    }
    for (text, want) in [
        ("", ""),
        (" \t\r\n", ""),
        ("a--b\nc", "0-1 Word, 5-6 Word, "),
    ] {
        if shown(alloc, text)?.as_str() != want {
            return Ok(text);
        }
    }
    Ok("")
}

// Whether the front of so many bytes of BIG_SPENDERS has this answer; a fault without a place is at its end.
fn has_answer(alloc: Global, length: usize, want: &str) -> Result<bool, Fail> {
    let Some(front) = BIG_SPENDERS.as_bytes().get(..length) else {
        return Ok(false);
    };
    if front.len() > 999 {
        return Ok(false);
    }
    let found = answer(alloc, front)?;
    if want == "Syntax at its end" {
        return Ok(found.as_str() == format!(in alloc; "Syntax {length}")?.as_str());
    }
    Ok(found.as_str() == want)
}

// The first case of these whose fronts don't all have its answer, or nothing.
fn wrong_front(alloc: Global, cases: &'static str) -> Result<&'static str, Fail> {
    for line in cases.lines() {
        let (lengths, want) = line.split_once(" | ").unwrap_or(("", ""));
        let (from, to) = lengths.split_once(' ').unwrap_or(("", ""));
        for length in from.parse::<usize>().unwrap_or(0)..to.parse::<usize>().unwrap_or(999) {
            if !has_answer(alloc, length, want)? {
                return Ok(line);
            }
        }
    }
    Ok("")
}

// Where the word begins that a text of so many bytes ends in; its length, where it ends in no word.
fn last_word(text: &[u8]) -> usize {
    let mut start = text.len();
    for (index, byte) in text.iter().enumerate() {
        if !byte.is_ascii_alphanumeric() && *byte != b'_' {
            start = text.len();
        } else if start == text.len() {
            start = index;
        }
    }
    start
}

// Whether the front of so many bytes of a script spells a script, or is refused at its end or at its last word.
fn is_front_told(alloc: Global, script: &str, length: usize) -> Result<bool, Fail> {
    let Some(front) = script.as_bytes().get(..length) else {
        return Ok(false);
    };
    if front.len() > 999 {
        return Ok(false);
    }
    let found = answer(alloc, front)?;
    let word = format!(in alloc; "Syntax {}", last_word(front))?;
    let end = format!(in alloc; "Syntax {length}")?;
    Ok(
        found.as_str() == "tree"
            || found.as_str() == end.as_str()
            || found.as_str() == word.as_str(),
    )
}

// The first of these scripts with a proper front that is told otherwise, or nothing.
fn wrong_shaped(alloc: Global, scripts: &[&'static str]) -> Result<&'static str, Fail> {
    for script in scripts {
        for length in 0..script.len() {
            if !is_front_told(alloc, script, length)? {
                return Ok(script);
            }
        }
    }
    Ok("")
}

// Whether the front of a script up to the end of a token spells a script, or is refused at its end.
fn is_cut_told(alloc: Global, script: &str, to: usize) -> Result<bool, Fail> {
    let Some(front) = script.as_bytes().get(..to) else {
        return Ok(false);
    };
    if front.len() > 999 {
        return Ok(false);
    }
    let found = answer(alloc, front)?;
    let end = format!(in alloc; "Syntax {to}")?;
    Ok(found.as_str() == "tree" || found.as_str() == end.as_str())
}

// Whether all fronts of a script that end with a token are told so.
fn are_cuts_told(alloc: Global, script: &str) -> Result<bool, Fail> {
    if script.len() > 999 {
        return Ok(false);
    }
    let found = tokens(alloc, script)?;
    for token in found.iter() {
        if !is_cut_told(alloc, script, token.span.to as usize)? {
            return Ok(false);
        }
    }
    Ok(!found.is_empty())
}

// The first of these scripts with a front of whole tokens that is told otherwise, or nothing.
fn wrong_cut(alloc: Global, scripts: &[&'static str]) -> Result<&'static str, Fail> {
    for script in scripts {
        if !are_cuts_told(alloc, script)? {
            return Ok(script);
        }
    }
    Ok("")
}

#[test]
fn odd_texts_and_fronts_are_told(rt: HostRuntime) -> Result<(), Fail> {
    assert_eq!(rt; wrong_text(rt.alloc())?, "");
    assert_eq!(rt; wrong_front(rt.alloc(), faults::FRONTS)?, "");
    assert_eq!(rt; wrong_shaped(rt.alloc(), &faults::SHAPED)?, "");
    assert_eq!(rt; wrong_cut(rt.alloc(), &faults::SHAPED)?, "");
    let big = told(rt.alloc(), Asked::Tree, BIG_SPENDERS)?;
    assert_eq!(rt; big.as_str(), trees::BIG_TREE);
    Ok(())
}
