//! The answers of single calls, worked out by hand.
use outside::{Folder, LoadFault, MemoryFolder, MemorySink, PutFault, Sink, SureFolder, SureSink};
use sq_value::Memory;
use std::alloc::Global;
use std::test::Fail;

/// Whether a load through the trait alone gives these bytes.
fn gives<F: Folder>(folder: &mut F, alloc: Global, name: &str, limit: usize, text: &[u8]) -> bool {
    match folder.load(alloc, name, limit) {
        Ok(bytes) => bytes.as_slice() == text,
        Err(_) => false,
    }
}

/// What a load through the trait alone is refused with.
fn refused<F: Folder>(folder: &mut F, alloc: Global, name: &str) -> Option<LoadFault> {
    folder.load(alloc, name, 9).err()
}

/// What a look through the trait alone shows: the bytes that came, `none`, or its fault.
fn seen<F: Folder>(
    folder: &mut F,
    alloc: Global,
    name: &str,
    limit: usize,
) -> Result<String, Memory> {
    match folder.look(alloc, name, limit) {
        Ok(Some(bytes)) => Ok(format!(in alloc; "{:?}", bytes.as_slice())?),
        Ok(None) => Ok(String::from_str(alloc, "none")?),
        Err(fault) => Ok(format!(in alloc; "{fault:?}")?),
    }
}

/// A put through the trait alone.
fn put_into<S: Sink>(sink: &mut S, piece: &[u8]) -> Result<(), PutFault> {
    sink.put(piece)
}

#[test]
fn folders_give_what_they_keep(rt: HostRuntime) -> Result<(), Fail> {
    let mut folder = MemoryFolder::new(rt.alloc());
    folder.fail_at(3)?;
    folder.keep("f", b"ab")?;
    assert!(rt; gives(&mut folder, rt.alloc(), "f", 1, b"a"));
    assert!(rt; refused(&mut folder, rt.alloc(), "g") == Some(LoadFault::Absent));
    assert!(rt; folder.faults() == 0);
    assert!(rt; refused(&mut folder, rt.alloc(), "f") == Some(LoadFault::Failed));
    assert!(rt; folder.faults() == 1);
    folder.keep("f", b"c")?;
    assert!(rt; gives(&mut folder, rt.alloc(), "f", 9, b"c"));
    assert!(rt; sure_folder_gives(rt.alloc())?);
    Ok(())
}

#[test]
fn a_look_shows_a_file_or_none(rt: HostRuntime) -> Result<(), Fail> {
    let alloc = rt.alloc();
    let mut folder = MemoryFolder::new(alloc);
    folder.keep("f", b"ab")?;
    folder.keep("empty", b"")?;
    folder.fail_at(5)?;
    folder.fail_at(7)?;
    // Looks and loads count together: the sixth call is a load.
    for (name, limit, wanted) in [
        ("f", 9, "[97, 98]"),
        ("f", 1, "[97]"),
        ("empty", 9, "[]"),
        ("g", 9, "none"),
        ("f", 9, "Failed"),
    ] {
        assert_eq!(rt; seen(&mut folder, alloc, name, limit)?.as_str(), wanted);
    }
    assert!(rt; gives(&mut folder, alloc, "f", 9, b"ab") && folder.faults() == 1);
    assert_eq!(rt; seen(&mut folder, alloc, "g", 9)?.as_str(), "Failed");
    assert!(rt; folder.faults() == 2);
    let mut sure = SureFolder::new(alloc);
    sure.keep("f", b"ab")?;
    assert_eq!(rt; seen(&mut sure, alloc, "f", 1)?.as_str(), "[97]");
    assert_eq!(rt; seen(&mut sure, alloc, "g", 9)?.as_str(), "none");
    Ok(())
}

/// Whether a folder without faults gives what it keeps.
fn sure_folder_gives(alloc: Global) -> Result<bool, Memory> {
    let mut sure = SureFolder::new(alloc);
    sure.keep("f", b"ab")?;
    let given = gives(&mut sure, alloc, "f", 1, b"a");
    Ok(given && refused(&mut sure, alloc, "g") == Some(LoadFault::Absent))
}

#[test]
fn sinks_take_as_much_as_fits(rt: HostRuntime) -> Result<(), Fail> {
    let mut sink = MemorySink::with_room(rt.alloc(), 8)?;
    sink.fail_at(2, 1)?;
    assert!(rt; put_into(&mut sink, b"ab").is_ok());
    assert!(rt; put_into(&mut sink, b"cd") == Err(PutFault::Failed));
    assert!(rt; sink.written() == b"abc".as_slice() && sink.faults() == 1);
    assert!(rt; small_sink_takes(rt.alloc())?);
    assert!(rt; sure_sink_takes(rt.alloc())?);
    Ok(())
}

/// Whether a sink with room for one byte takes the first of two, and fails.
fn small_sink_takes(alloc: Global) -> Result<bool, Memory> {
    let mut small = MemorySink::with_room(alloc, 1)?;
    let failed = put_into(&mut small, b"ab") == Err(PutFault::Failed);
    Ok(failed && small.written() == b"a".as_slice() && small.faults() == 1)
}

/// Whether a sink without faults keeps the first two bytes of three.
fn sure_sink_takes(alloc: Global) -> Result<bool, Memory> {
    let mut sure = SureSink::with_room(alloc, 2)?;
    let taken = put_into(&mut sure, b"abc").is_ok();
    Ok(taken && sure.written() == b"ab".as_slice())
}

#[test]
fn faults_say_what_failed(rt: HostRuntime) -> Result<(), Fail> {
    let texts = [
        (LoadFault::Absent, "no such file"),
        (LoadFault::Failed, "reading failed"),
        (LoadFault::Memory, "out of memory"),
    ];
    for (fault, text) in texts {
        assert_eq!(rt; format!(in rt.alloc(); "{fault}")?.as_str(), text);
    }
    assert_eq!(rt;
        format!(in rt.alloc(); "{}", PutFault::Failed)?.as_str(),
        "writing failed"
    );
    Ok(())
}
