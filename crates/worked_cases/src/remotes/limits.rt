//! Cases at the limits: the keys of a remote, and the bytes of a file.
use crate::remotes::given::loaded_in;
use outside::MemoryFolder;
use remote_lookup::{RemoteFault, RemoteKey};
use std::alloc::Global;
use std::test::Fail;

// Two tables by lines: numbers from 1 to an end, and visits, which have no rows.
fn numbers_to(alloc: Global, end: u32) -> Result<String, Fail> {
    let mut text = String::new(alloc);
    text.push_str("num id:int")?;
    for number in 1..=end {
        text.push_str(format!(in alloc; "/{number}")?.as_str())?;
    }
    text.push_str("\nvisit who:int,day:int")?;
    Ok(text)
}

// How many keys are loaded where so many are needed, if none is refused.
fn keys_loaded(alloc: Global, needed: u32) -> Result<Option<usize>, Fail> {
    let tables = numbers_to(alloc, needed)?;
    let mut folder = MemoryFolder::new(alloc);
    let text = "SELECT day FROM num, visit WHERE id = who";
    match loaded_in(alloc, tables.as_str(), "s 0", "1.0=v/", text, &mut folder)? {
        Some(Ok(loaded)) => Ok(Some(loaded.keys.len())),
        _ => Ok(None),
    }
}

// Whether more keys of the remote are needed than may be.
fn are_too_many(alloc: Global, needed: u32) -> Result<bool, Fail> {
    let tables = numbers_to(alloc, needed)?;
    let mut folder = MemoryFolder::new(alloc);
    let text = "SELECT day FROM num, visit WHERE id = who";
    let answer = loaded_in(alloc, tables.as_str(), "s 0", "1.0=v/", text, &mut folder)?;
    Ok(matches!(answer, Some(Err(RemoteFault::TooManyKeys { remote: 0 }))))
}

#[test]
fn ten_thousand_keys_and_one_more(rt: HostRuntime) -> Result<(), Fail> {
    let alloc = rt.alloc();
    assert_eq!(rt; keys_loaded(alloc, 10_000)?, Some(10_000));
    assert!(rt; are_too_many(alloc, 10_001)?);
    Ok(())
}

#[test]
fn a_file_is_one_byte_too_long(rt: HostRuntime) -> Result<(), Fail> {
    let alloc = rt.alloc();
    let bytes = vec![in alloc; b'x'; 67_108_865]?;
    let mut folder = MemoryFolder::new(alloc);
    folder.keep("v/2.csv", bytes.as_slice())?;
    let text = "SELECT day FROM num, visit WHERE id = who";
    let tables = numbers_to(alloc, 3)?;
    let answer = loaded_in(alloc, tables.as_str(), "s 0", "1.0=v/", text, &mut folder)?;
    let at = RemoteKey { remote: 0, key: 2 };
    assert!(rt; matches!(answer, Some(Err(RemoteFault::TooLong { at: found })) if found == at));
    Ok(())
}
