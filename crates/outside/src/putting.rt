//! Pieces that a stream takes whole, each followed by a flush. Each call that fails is counted, and
//! none is made again.
ghost use Rattle.std.specs.Prelude.{◌≡◌, ◌<◌, ◌≤◌, length, take, IfOk, OnErr, OnOk};
ghost use Rattle.std.specs.Io.KnownBytes.{Appends, Keeps};
ghost use Rattle.outside.specs.Faults.{raised, RoseOrFull};
ghost use Rattle.outside.specs.Streams.{TakesPrefix};

use crate::counted::counted;
use crate::fault::PutFault;
use std::io::Write;

/// Writes once, and gives how many of the first bytes of the piece were taken, at least one.
///
/// # Errors
/// `Failed`: the call failed, or took nothing. That was counted.
fn write_some<W: Write>(stream: &mut W, piece: &[u8], faults: &mut u64) -> Result<usize, PutFault>
    ensures some { IfOk result (λ taken. 0 < taken) }
    ensures within { IfOk result (λ taken. taken ≤ length piece.now) }
    ensures taken { IfOk result (λ taken. Appends (W.contents stream.old) (W.contents stream.new)
        (take taken piece.now)) }
    ensures untaken { OnErr result (Keeps (W.contents stream.old) (W.contents stream.new)) }
    ensures failed { OnErr result (faults.new ≡ raised faults.old) }
    ensures kept { OnOk result (faults.new ≡ faults.old) }
{
    match counted(stream.write(piece), faults) {
        Some(0) => {
            *faults = faults.saturating_add(1);
            Err(PutFault::Failed)
        }
        Some(taken) => Ok(taken),
        None => Err(PutFault::Failed),
    }
}

/// Writes the piece, with one call where the stream takes it whole.
///
/// # Errors
/// `Failed`: a call failed or took nothing, and was counted. The stream took a prefix of the piece.
fn write_whole<W: Write>(stream: &mut W, piece: &[u8], faults: &mut u64) -> Result<(), PutFault>
    ensures whole { OnOk result (Appends (W.contents stream.old) (W.contents stream.new) piece.now) }
    ensures prefix { OnErr result (TakesPrefix piece.now (W.contents stream.old) (W.contents stream.new)) }
    ensures failed { OnErr result (faults.new ≡ raised faults.old) }
    ensures kept { OnOk result (faults.new ≡ faults.old) }
{
    let mut start = 0;
    while start < piece.len() {
        start += write_some(stream, &piece[start..], faults)?;
    }
    Ok(())
}

/// Writes the piece, and flushes then, also where writing failed.
///
/// # Errors
/// `Failed`: a write or the flush failed, and each that did was counted. The stream took a prefix of
/// the piece.
pub(crate) fn put_whole<W: Write>(
    stream: &mut W,
    piece: &[u8],
    faults: &mut u64,
) -> Result<(), PutFault>
    ensures whole { OnOk result (Appends (W.contents stream.old) (W.contents stream.new) piece.now) }
    ensures prefix { OnErr result (TakesPrefix piece.now (W.contents stream.old) (W.contents stream.new)) }
    ensures failed { OnErr result (RoseOrFull faults.old faults.new) }
    ensures kept { OnOk result (faults.new ≡ faults.old) }
{
    let written = write_whole(stream, piece, faults);
    let flushed = counted(stream.flush(), faults);
    if flushed.is_none() {
        return Err(PutFault::Failed);
    }
    written
}
