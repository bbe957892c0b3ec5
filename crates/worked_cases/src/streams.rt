//! The real folder and sink over files, and over streams that fail where they are told. What is
//! expected was worked out by hand.
use outside::{Folder, LoadFault, PutFault, RealFolder, RealSink, Sink, load_prefix, look_prefix};
use std::alloc::{AllocError, Global};
use std::io::{ErrorKind, Read, Write};
use std::test::Fail;
use std::{fs, io};

/// A text of that many bytes, no two neighbouring pieces of which are the same.
fn text_of(alloc: Global, count: usize) -> Result<Vec<u8>, AllocError> {
    let mut text = Vec::new(alloc);
    for number in 0..count {
        text.push((number % 251) as u8)?;
    }
    Ok(text)
}

/// A put through the trait alone.
fn put_into<S: Sink>(sink: &mut S, piece: &[u8]) -> Result<(), PutFault> {
    sink.put(piece)
}

/// Whether bytes came, and are these.
fn is_text<E>(loaded: &Result<Vec<u8>, E>, text: &[u8]) -> bool {
    match loaded {
        Ok(bytes) => bytes.as_slice() == text,
        Err(_) => false,
    }
}

/// The first of eight limits at which a load through the trait alone gives anything but the first
/// bytes of the text of 300,000.
fn first_wrong<F: Folder>(
    folder: &mut F,
    alloc: Global,
    name: &str,
) -> Result<Option<usize>, AllocError> {
    let text = text_of(alloc, 300_000)?;
    for limit in [0, 1, 4_096, 4_097, 131_072, 200_000, 300_000, 300_001] {
        let loaded = folder.load(alloc, name, limit);
        if !is_text(&loaded, &text[..limit.min(text.len())]) {
            return Ok(Some(limit));
        }
    }
    Ok(None)
}

/// Whether a load through the trait alone fails.
fn is_failed<F: Folder>(folder: &mut F, alloc: Global, name: &str) -> bool {
    folder.load(alloc, name, 4).err() == Some(LoadFault::Failed)
}

/// Whether a look through the trait alone finds no file.
fn finds_none<F: Folder>(folder: &mut F, alloc: Global, name: &str) -> bool {
    match folder.look(alloc, name, 4) {
        Ok(found) => found.is_none(),
        Err(_) => false,
    }
}

/// Whether a look through the trait alone finds these bytes.
fn finds<F: Folder>(folder: &mut F, alloc: Global, name: &str, text: &[u8]) -> bool {
    match folder.look(alloc, name, 4) {
        Ok(Some(bytes)) => bytes.as_slice() == text,
        _ => false,
    }
}

/// Writes the text of 300,000 bytes, and another under the same name without its blanks.
fn write_files(rt: &HostRuntime, name: &str) -> Result<(), Fail> {
    let text = text_of(rt.alloc(), 300_000)?;
    fs::write(rt, name, text.as_slice())?;
    fs::write(rt, name.trim(), "trimmed")?;
    Ok(())
}

#[test]
fn files_are_loaded_by_their_whole_names_up_to_the_limit(rt: HostRuntime) -> Result<(), Fail> {
    let name = " outside_test_file ";
    write_files(&rt, name)?;
    let mut folder = RealFolder::new(&rt);
    let wrong = first_wrong(&mut folder, rt.alloc(), name)?;
    fs::remove_file(&rt, name.trim())?;
    fs::remove_file(&rt, name)?;
    assert_eq!(rt; wrong, None);
    assert!(rt; folder.faults() == 0);
    assert!(rt; is_failed(&mut folder, rt.alloc(), name));
    assert!(rt; folder.faults() == 1);
    // A folder can be opened, and not read.
    assert!(rt; is_failed(&mut folder, rt.alloc(), "."));
    assert!(rt; folder.faults() == 2);
    Ok(())
}

#[test]
fn a_file_that_is_not_there_is_none(rt: HostRuntime) -> Result<(), Fail> {
    let name = "outside_test_look";
    fs::write(&rt, name, "abcde")?;
    let mut folder = RealFolder::new(&rt);
    let found = finds(&mut folder, rt.alloc(), name, b"abcd");
    fs::remove_file(&rt, name)?;
    assert!(rt; found && finds_none(&mut folder, rt.alloc(), name));
    assert!(rt; finds_none(&mut folder, rt.alloc(), "no_such_folder/1.csv"));
    assert!(rt; folder.faults() == 0);
    // A folder is there, and can't be read; nor has a file others below it.
    assert!(rt; folder.look(rt.alloc(), ".", 4).err() == Some(LoadFault::Failed));
    assert!(rt; folder.look(rt.alloc(), "/dev/null/1.csv", 4).err() == Some(LoadFault::Failed));
    assert!(rt; folder.faults() == 2);
    Ok(())
}

/// A stream that gives at most `most` bytes a call, and fails at one call, which counts from 1.
#[derive(Drop)]
struct Giver<'a> {
    text: &'a [u8],
    most: usize,
    fails_at: u64,
    kind: ErrorKind,
    calls: u64,
}

impl<'a> Read for Giver<'a> {
    fn read(&mut self, piece: &mut [u8]) -> io::Result<usize> {
        self.calls = self.calls.saturating_add(1);
        if self.calls == self.fails_at {
            return Err(io::Error::from(self.kind));
        }
        let count = self.most.min(piece.len());
        (&mut self.text).read(&mut piece[..count])
    }
}

/// Loads from such a stream, and answers the bytes that came, the faults counted, the calls made and
/// the bytes left.
fn load_given(
    alloc: Global,
    (most, fails_at, limit): (usize, u64, usize),
    kind: ErrorKind,
) -> (Result<Vec<u8>, LoadFault>, u64, u64, usize) {
    let mut giver = Giver {
        text: b"abcde",
        most,
        fails_at,
        kind,
        calls: 0,
    };
    let mut faults = 7;
    let loaded = load_prefix(Ok(&mut giver), alloc, limit, &mut faults);
    (loaded, faults, giver.calls, giver.text.len())
}

#[test]
fn a_stream_is_read_to_its_end_or_the_limit(rt: HostRuntime) {
    // Bytes a call, the call that fails, the limit; the bytes that come, the calls and the bytes left.
    let whole = [
        ((9, 0, 9), "abcde", 2, 0),
        ((2, 0, 9), "abcde", 4, 0),
        ((2, 0, 5), "abcde", 3, 0),
        ((2, 0, 4), "abcd", 2, 1),
        ((2, 0, 3), "abc", 2, 2),
        ((9, 0, 0), "", 0, 5),
        ((2, 3, 4), "abcd", 2, 1),
    ];
    for (given, text, calls, left) in whole {
        let (loaded, faults, made, rest) = load_given(rt.alloc(), given, ErrorKind::Other);
        assert!(rt; is_text(&loaded, text.as_bytes()) && (faults, made, rest) == (7, calls, left));
    }
    let failing = [((2, 1, 9), 1, 5), ((2, 2, 9), 2, 3), ((2, 4, 9), 4, 0)];
    let kinds = [
        ErrorKind::Other,
        ErrorKind::OutOfMemory,
        ErrorKind::Interrupted,
    ];
    for (given, calls, left) in failing {
        for kind in kinds {
            let (loaded, faults, made, rest) = load_given(rt.alloc(), given, kind);
            let failed = loaded.err() == Some(LoadFault::Failed);
            assert!(rt; failed && (faults, made, rest) == (8, calls, left));
        }
    }
}

/// A stream that takes at most `most` bytes a call and `left` in all, and then nothing or, where it
/// is told, an error. It notes each call: `w` with the bytes taken, `f` for a flush, `!` for an error.
#[derive(Drop)]
struct Taker<'a> {
    notes: &'a mut Vec<u8>,
    most: usize,
    left: usize,
    write_fails: bool,
    flush_fails: bool,
}

impl<'a> Write for Taker<'a> {
    fn write(&mut self, piece: &[u8]) -> io::Result<usize> {
        let taken = self.left.min(self.most).min(piece.len());
        if taken == 0 && self.write_fails {
            self.notes.push(b'!')?;
            return Err(io::Error::from(ErrorKind::Interrupted));
        }
        self.notes.push(b'w')?;
        self.notes.extend_from_slice(&piece[..taken])?;
        self.left -= taken;
        Ok(taken)
    }

    fn flush(&mut self) -> io::Result<()> {
        self.notes.push(b'f')?;
        if self.flush_fails {
            self.notes.push(b'!')?;
            return Err(io::Error::from(ErrorKind::OutOfMemory));
        }
        Ok(())
    }
}

/// Puts `abc` and then `de` into such a stream, and answers the calls noted, the puts that took their
/// piece and the faults counted.
fn put_given(
    alloc: Global,
    (most, left): (usize, usize),
    (write_fails, flush_fails): (bool, bool),
) -> (Vec<u8>, (bool, bool), u64) {
    let mut notes = Vec::new(alloc);
    let mut sink = RealSink::new(Taker {
        notes: &mut notes,
        most,
        left,
        write_fails,
        flush_fails,
    });
    let first = put_into(&mut sink, b"abc").is_ok();
    let second = put_into(&mut sink, b"de").is_ok();
    let faults = sink.faults();
    (notes, (first, second), faults)
}

#[test]
fn a_piece_is_written_whole_and_then_flushed(rt: HostRuntime) {
    // Bytes a call and in all, whether a write and the flush fail; the calls, the puts, the faults.
    let cases = [
        ((9, 9), (false, false), "wabcfwdef", (true, true), 0),
        ((2, 9), (false, false), "wabwcfwdef", (true, true), 0),
        ((9, 4), (false, false), "wabcfwdwf", (true, false), 1),
        ((9, 4), (true, false), "wabcfwd!f", (true, false), 1),
        ((9, 9), (false, true), "wabcf!wdef!", (false, false), 2),
        ((9, 0), (true, true), "!f!!f!", (false, false), 4),
    ];
    for (given, fails, calls, taken, faults) in cases {
        let (notes, puts, counted) = put_given(rt.alloc(), given, fails);
        assert!(rt; notes.as_slice() == calls.as_bytes() && puts == taken && counted == faults);
    }
}

/// Puts a text and then nothing into a stream that takes all, and answers whether both were taken, and
/// are all that was.
fn is_taken(alloc: Global, text: &[u8]) -> bool {
    let mut taken = Vec::new(alloc);
    let mut sink = RealSink::new(&mut taken);
    let puts = (put_into(&mut sink, text), put_into(&mut sink, b""));
    puts == (Ok(()), Ok(())) && sink.faults() == 0 && taken.as_slice() == text
}

#[test]
fn a_long_piece_is_taken_whole(rt: HostRuntime) -> Result<(), Fail> {
    let text = text_of(rt.alloc(), 300_000)?;
    assert!(rt; is_taken(rt.alloc(), text.as_slice()));
    Ok(())
}
