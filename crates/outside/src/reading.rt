//! The first bytes of a stream, which is read no further. Each call that fails is counted, and none
//! is made again.
ghost use Rattle.std.specs.Prelude.{◌≡◌, ◌≢◌, ◌+◌, ◌-◌, ◌*◌, ◌^◌, ◌<◌, ◌≤◌, ◌++◌, length, take, drop, None, vec_len, is_none, IfOk, IfSome, IfNone, OnOk, OnErr, IfErr, IsSomeAnd, Some, Ok, ◌↔◌, true, false, if◌then◌else◌};
ghost use Rattle.std.specs.IoError.{error_kind};
ghost use Rattle.std.specs.Io.{StartsWith, appended_bytes};
ghost use Rattle.std.specs.Io.KnownBytes.{Consumes, IsAtEnd, Keeps};
ghost use Rattle.outside.specs.Faults.{raised};
ghost use Rattle.outside.specs.Streams.{IsPrefixWithin, LosesAtMost};

use crate::counted::counted;
use crate::fault::LoadFault;
use std::alloc::Global;
use std::io;
use std::io::{ErrorKind, Read};

/// The least and the most bytes that one call is asked for, but for the last of a file.
const LEAST_PIECE: usize = 8 * 1024;

const MOST_PIECE: usize = 128 * 1024;

/// Reads once into what stands from `start` on, and gives how many bytes came, or None where the call
/// failed. That is counted.
fn read_once<R: Read>(
    reader: &mut R,
    all: &mut [u8],
    start: usize,
    faults: &mut u64,
) -> Option<usize>
    requires { start < length all.old }
    ensures before { take start all.new ≡ take start all.old }
    ensures within { IfSome result (λ count. start + count ≤ length all.old) }
    ensures taken { IfSome result (λ count. Consumes (R.remaining reader.old) (R.remaining reader.new)
        (take count (drop start all.new))) }
    ensures at_end { IfSome result (λ count. count ≡ 0 → IsAtEnd (R.remaining reader.new)) }
    ensures untaken { IfNone result (Keeps (R.remaining reader.old) (R.remaining reader.new)) }
    ensures counts { faults.new ≡ (if is_none result then raised faults.old else faults.old) }
{
    counted(reader.read(&mut all[start..]), faults)
}

/// Reads once, at most `most` bytes, behind those that were read before. Pieces grow with what was
/// read.
///
/// # Errors
/// - `Failed`: the call failed, and was counted.
/// - `Memory`: there is no memory for the piece.
fn read_more<R: Read>(
    reader: &mut R,
    bytes: &mut Vec<u8>,
    most: usize,
    faults: &mut u64,
) -> Result<usize, LoadFault>
    requires some { 0 < most }
    requires room { vec_len bytes.old + most < 2 ^ 64 }
    ensures within { IfOk result (λ count. count ≤ most) }
    ensures longer { IfOk result (λ count. vec_len bytes.new ≡ vec_len bytes.old + count) }
    ensures behind { OnOk result (StartsWith bytes.new.items bytes.old.items) }
    ensures taken { OnOk result (Consumes (R.remaining reader.old) (R.remaining reader.new)
        (appended_bytes bytes.old.items bytes.new.items)) }
    ensures at_end { IfOk result (λ count. count ≡ 0 → IsAtEnd (R.remaining reader.new)) }
    ensures untaken { OnErr result (Keeps (R.remaining reader.old) (R.remaining reader.new)) }
    ensures failed { result ≡ Err LoadFault.Failed → faults.new ≡ raised faults.old }
    ensures kept { result ≢ Err LoadFault.Failed → faults.new ≡ faults.old }
    ensures never_absent { result ≢ Err LoadFault.Absent }
{
    let start = bytes.len();
    let room = start.clamp(LEAST_PIECE, MOST_PIECE).min(most);
    bytes.resize(start + room, 0)?;
    let Some(count) = read_once(reader, bytes.as_mut_slice(), start, faults) else {
        return Err(LoadFault::Failed);
    };
    bytes.truncate(start + count);
    Ok(count)
}

/// The first bytes that the stream has left, at most `limit` of them. It is read up to its end or to
/// the limit.
///
/// # Errors
/// - `Failed`: a call failed, and was counted.
/// - `Memory`: there is no memory for the bytes.
fn read_prefix<R: Read>(
    reader: &mut R,
    alloc: Global,
    limit: usize,
    faults: &mut u64,
) -> Result<Vec<u8>, LoadFault>
    ensures within { IfOk result (λ bytes. vec_len bytes ≤ limit) }
    ensures prefix { IfOk result (λ bytes. IsPrefixWithin (R.remaining reader.old) limit bytes.items) }
    ensures taken { IfOk result (λ bytes. Consumes (R.remaining reader.old) (R.remaining reader.new) bytes.items) }
    ensures no_further { LosesAtMost limit (R.remaining reader.old) (R.remaining reader.new) }
    ensures failed { result ≡ Err LoadFault.Failed → faults.new ≡ raised faults.old }
    ensures kept { result ≢ Err LoadFault.Failed → faults.new ≡ faults.old }
    ensures never_absent { result ≢ Err LoadFault.Absent }
{
    let mut bytes = Vec::new(alloc);
    while bytes.len() < limit {
        let most = limit - bytes.len();
        if read_more(reader, &mut bytes, most, faults)? == 0 {
            break;
        }
    }
    Ok(bytes)
}

/// The first bytes of what was opened, at most `limit` of them: what `RealFolder` loads of a file, from any stream.
///
/// # Errors
/// - `Failed`: it couldn't be opened, or reading failed. That call was counted.
/// - `Memory`: there is no memory for the bytes.
pub fn load_prefix<R: Read + Drop>(
    opened: io::Result<R>,
    alloc: Global,
    limit: usize,
    faults: &mut u64,
) -> Result<Vec<u8>, LoadFault>
    ensures within { IfOk result (λ bytes. vec_len bytes ≤ limit) }
    ensures prefix { IfOk opened (λ reader. IfOk result
        (λ bytes. IsPrefixWithin (R.remaining reader) limit bytes.items)) }
    ensures unopened { OnErr opened (result ≡ Err LoadFault.Failed) }
    ensures failed { result ≡ Err LoadFault.Failed → faults.new ≡ raised faults.old }
    ensures kept { result ≢ Err LoadFault.Failed → faults.new ≡ faults.old }
    ensures never_absent { result ≢ Err LoadFault.Absent }
{
    match counted(opened, faults) {
        Some(mut reader) => read_prefix(&mut reader, alloc, limit, faults),
        None => Err(LoadFault::Failed),
    }
}

/// Whether the system said that there is no such file.
fn is_lacking<R>(opened: &io::Result<R>) -> bool
    ensures found { IfOk opened.now (λ _. result ≡ false) }
    ensures lacking { IfErr opened.now (λ fault. result ≡ true ↔ error_kind fault ≡ ErrorKind.NotFound) }
{
    match opened {
        Ok(_) => false,
        Err(fault) => fault.kind() == ErrorKind::NotFound,
    }
}

/// The first bytes of what was opened, at most `limit` of them, or None where there was no such
/// file: what `RealFolder` sees of a file, from any stream.
///
/// # Errors
/// - `Failed`: it is there and couldn't be opened, or reading failed. That call was counted.
/// - `Memory`: there is no memory for the bytes.
pub fn look_prefix<R: Read + Drop>(
    opened: io::Result<R>,
    alloc: Global,
    limit: usize,
    faults: &mut u64,
) -> Result<Option<Vec<u8>>, LoadFault>
    ensures within { IfOk result (λ found. IfSome found (λ bytes. vec_len bytes ≤ limit)) }
    ensures prefix { IfOk opened (λ reader. IfOk result
        (λ found. IsSomeAnd found (λ bytes. IsPrefixWithin (R.remaining reader) limit bytes.items))) }
    ensures lacking { IfErr opened (λ fault. error_kind fault ≡ ErrorKind.NotFound → result ≡ Ok None) }
    ensures unopened { IfErr opened (λ fault. error_kind fault ≢ ErrorKind.NotFound
        → result ≡ Err LoadFault.Failed) }
    ensures failed { result ≡ Err LoadFault.Failed → faults.new ≡ raised faults.old }
    ensures kept { result ≢ Err LoadFault.Failed → faults.new ≡ faults.old }
    ensures never_absent { result ≢ Err LoadFault.Absent }
{
    if is_lacking(&opened) {
        return Ok(None);
    }
    match load_prefix(opened, alloc, limit, faults) {
        Ok(bytes) => Ok(Some(bytes)),
        Err(fault) => Err(fault),
    }
}
