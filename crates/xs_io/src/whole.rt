ghost use Rattle.std.specs.Prelude.{◌≡◌, ◌≢◌, ℕ, List, ◌+◌, ◌≤◌, ◌<◌, length, take, vec_len, IfOk, IfErr, OnOk, OnErr, IsErrOf};
ghost use Rattle.std.specs.Io.KnownBytes.{Appends};
ghost use Rattle.xs_io.specs.Causes.{Rose};
ghost use Rattle.xs_io.specs.Whole.{Drains, Exceeds, TakesAtMost};
ghost use Rattle.xs_io.specs.Shown.{IsFile, IsLongFile, NameFailed, Touches};

use crate::device::PIECE;
use crate::{Failed, Shelf, Sink, Source};
use std::alloc::Global;
use xs_class::{Bytes, Memory};

/// Why reading stopped before the end.
#[derive(Clone, Copy, Debug, PartialEq, Eq)]
pub enum ReadStop {
    /// The source failed, or the file of that name.
    ReadFault,
    /// There were more bytes than the limit.
    TooLong,
    /// Want of memory.
    Memory,
}

impl From<Memory> for ReadStop {
    ghost use Rattle.std.specs.Prelude.{◌≡◌};
    ghost use Rattle.xs_io.specs.declared.whole.ReadStop.TheVariants.{Memory};

    ghost from_gives = { λ _ e. e ≡ Memory };

    fn from(_: Memory) -> Self {
        ReadStop::Memory
    }
}

impl From<Failed> for ReadStop {
    ghost use Rattle.std.specs.Prelude.{◌≡◌};
    ghost use Rattle.xs_io.specs.declared.whole.ReadStop.TheVariants.{ReadFault};

    ghost from_gives = { λ _ e. e ≡ ReadFault };

    fn from(_: Failed) -> Self {
        ReadStop::ReadFault
    }
}

/// The sink failed, after it took the first `written` bytes and no more.
#[derive(Clone, Copy, Debug, PartialEq, Eq)]
pub struct WriteFault {
    pub written: u64,
}

/// A buffer of that many bytes, all 0.
fn buffer(alloc: Global, len: usize) -> Result<Vec<u8>, Memory>
    ensures { IfOk result (λ buf. vec_len buf ≡ len) }
{
    Ok(vec![in alloc; 0u8; len]?)
}

/// All the bytes that are left in the source, of which there are at most `limit`.
///
/// `ReadFault` comes only where the source's count of faults rose in this call, and `TooLong`
/// exactly where more than `limit` bytes were left and no fault came first. At most `limit + 1`
/// bytes are taken. The bytes are read in pieces of up to 64 KiB.
pub fn read_all<S: Source>(alloc: Global, src: &mut S, limit: usize) -> Result<Bytes, ReadStop>
    ensures whole { IfOk result (λ bytes. Drains (S.left src.old) (S.left src.new) bytes limit) }
    ensures long { IsErrOf result ReadStop.TooLong → Exceeds (S.left src.old) (S.left src.new)
        limit }
    ensures fault { IsErrOf result ReadStop.ReadFault → Rose (S.faults src.old) (S.faults src.new) }
    ensures later { S.faults src.old ≤ S.faults src.new }
    ensures taken { TakesAtMost (S.left src.old) (S.left src.new) (limit + 1) }
{
    let mut buf = buffer(alloc, PIECE)?;
    read_pieces(alloc, src, limit, &mut buf)
}

/// What `read_all` gives, read through this buffer.
fn read_pieces<S: Source>(
    alloc: Global,
    src: &mut S,
    limit: usize,
    buf: &mut [u8],
) -> Result<Bytes, ReadStop>
    requires { 0 < length buf.old }
    ensures whole { IfOk result (λ bytes. Drains (S.left src.old) (S.left src.new) bytes limit) }
    ensures long { IsErrOf result ReadStop.TooLong → Exceeds (S.left src.old) (S.left src.new)
        limit }
    ensures fault { IsErrOf result ReadStop.ReadFault → Rose (S.faults src.old) (S.faults src.new) }
    ensures later { S.faults src.old ≤ S.faults src.new }
    ensures taken { TakesAtMost (S.left src.old) (S.left src.new) (limit + 1) }
{
    let mut bytes = Bytes::new(alloc);
    'pieces: loop {
        let left = limit - bytes.len();
        let want = left.min(buf.len() - 1) + 1;
        let count = src.read(&mut buf[..want])?;
        if count == 0 {
            return Ok(bytes);
        }
        if count > left {
            return Err(ReadStop::TooLong);
        }
        bytes.extend(&buf[..count])?;
    }
}

/// All the bytes of the file of this name, of which there are at most `limit`.
///
/// `ReadFault` comes only where that name failed in this call, and `TooLong` exactly where the
/// file has more than `limit` bytes and no fault came first. The shelf gives at most `limit + 1`
/// bytes, in pieces of up to 64 KiB.
pub fn read_file<H: Shelf>(
    alloc: Global,
    shelf: &mut H,
    name: &str,
    limit: usize,
) -> Result<Bytes, ReadStop>
    ensures whole { IfOk result (λ bytes. IsFile (H.files shelf.old) name.now bytes limit) }
    ensures long { IsErrOf result ReadStop.TooLong → IsLongFile (H.files shelf.old) name.now limit }
    ensures fault { IsErrOf result ReadStop.ReadFault → NameFailed (H.files shelf.old) name.now
        (H.faults shelf.old) (H.faults shelf.new) (H.name_faults shelf.old name.now)
        (H.name_faults shelf.new name.now) }
    ensures taken { H.given shelf.new ≤ H.given shelf.old + (limit + 1) }
    ensures same { H.files shelf.new ≡ H.files shelf.old }
    ensures later { H.faults shelf.old ≤ H.faults shelf.new }
    ensures name_later { H.name_faults shelf.old name.now ≤ H.name_faults shelf.new name.now }
    ensures others { (other : List ℕ) → other ≢ name.now → H.name_faults shelf.new other
        ≡ H.name_faults shelf.old other }
{
    let mut buf = buffer(alloc, PIECE)?;
    read_file_pieces(alloc, shelf, name, limit, &mut buf)
}

/// What `read_file` gives, read through this buffer.
fn read_file_pieces<H: Shelf>(
    alloc: Global,
    shelf: &mut H,
    name: &str,
    limit: usize,
    buf: &mut [u8],
) -> Result<Bytes, ReadStop>
    requires { 0 < length buf.old }
    ensures taken { H.given shelf.new ≤ H.given shelf.old + (limit + 1) }
    ensures whole { IfOk result (λ bytes. IsFile (H.files shelf.old) name.now bytes limit) }
    ensures long { IsErrOf result ReadStop.TooLong → IsLongFile (H.files shelf.old) name.now limit }
    ensures fault { IsErrOf result ReadStop.ReadFault → NameFailed (H.files shelf.old) name.now
        (H.faults shelf.old) (H.faults shelf.new) (H.name_faults shelf.old name.now)
        (H.name_faults shelf.new name.now) }
    ensures touched { Touches (H.files shelf.old) (H.files shelf.new) name.now (H.faults shelf.old)
        (H.faults shelf.new) (H.name_faults shelf.old) (H.name_faults shelf.new) }
{
    let mut bytes = Bytes::new(alloc);
    'pieces: loop {
        let rest = limit - bytes.len();
        let want = rest.min(buf.len() - 1) + 1;
        let count = shelf.read_at(name, bytes.len() as u64, &mut buf[..want])?;
        if count == 0 {
            return Ok(bytes);
        }
        if count > rest {
            return Err(ReadStop::TooLong);
        }
        bytes.extend(&buf[..count])?;
    }
}

/// Writes all the bytes, in order.
///
/// `WriteFault` comes only where the sink's count of faults rose in this call. The sink then took
/// exactly the first `written` bytes, fewer than all.
pub fn put_all<K: Sink>(sink: &mut K, bytes: &[u8]) -> Result<(), WriteFault>
    ensures all { OnOk result (Appends (K.taken sink.old) (K.taken sink.new) bytes.now) }
    ensures part { IfErr result (λ f. Appends (K.taken sink.old) (K.taken sink.new)
        (take f.written bytes.now)) }
    ensures shorter { IfErr result (λ f. f.written < length bytes.now) }
    ensures fault { OnErr result (Rose (K.faults sink.old) (K.faults sink.new)) }
    ensures later { K.faults sink.old ≤ K.faults sink.new }
{
    let mut written = 0;
    'pieces: while written < bytes.len() {
        match sink.write(&bytes[written..]) {
            Ok(count) => written += count,
            Err(Failed) => {
                return Err(WriteFault {
                    written: written as u64,
                });
            }
        }
    }
    Ok(())
}
