ghost use Rattle.std.specs.Prelude.{◌≡◌, ◌≤◌, ◌<◌, length, take, IfOk, OnOk, OnErr, None};
ghost use Rattle.std.specs.Io.{ReadsAtMost, WritesAtMost};
ghost use Rattle.std.specs.Io.KnownBytes.{ReadConsumes, WriteAppends};
ghost use Rattle.xs_io.specs.CallLog.{IsCounted};
ghost use Rattle.xs_io.specs.Causes.{HasCause};
ghost use Rattle.xs_io.specs.Shown.{StandIn, GivesAtMost, NameFailed};

use crate::device::PIECE;
use crate::{Failed, Shelf, Sink, Source};
use std::io::{ErrorKind, Read, Seek, SeekFrom, Write};
use std::rt::Files;
use std::{fs, io};

/// How often one call is tried again where a signal interrupts it.
const RETRIES: u32 = 1_000;

/// One read, tried again while it is interrupted.
fn read_again<R: Read>(reader: &mut R, buf: &mut [u8]) -> Result<usize, Failed>
    requires { 0 < length buf.old }
    ensures bound { ReadsAtMost result buf.new }
    ensures bytes { ReadConsumes (R.remaining reader.old) (R.remaining reader.new) result buf.new }
{
    'again: for _ in 0..=RETRIES {
        match reader.read(buf) {
            Ok(count) => return Ok(count),
            Err(error) => {
                if error.kind() != ErrorKind::Interrupted {
                    return Err(Failed);
                }
            }
        }
    }
    Err(Failed)
}

/// One read through a piece of its own: a reader that fails may leave anything in what it was given.
/// Never inlined, so that the piece stands on the stack for this call alone.
#[inline(never)]
fn read_whole<R: Read>(reader: &mut R, buf: &mut [u8]) -> Result<usize, Failed>
    requires { 0 < length buf.old }
    ensures bound { ReadsAtMost result buf.new }
    ensures bytes { ReadConsumes (R.remaining reader.old) (R.remaining reader.new) result buf.new }
    ensures kept { OnErr result (buf.new ≡ buf.old) }
{
    let mut piece = [0u8; PIECE];
    let most = buf.len().min(PIECE);
    let count = read_again(reader, &mut piece[..most])?;
    buf[..count].copy_from_slice(&piece[..count]);
    Ok(count)
}

/// One write, tried again while it is interrupted. A write of nothing is a failure.
fn write_again<W: Write>(writer: &mut W, piece: &[u8]) -> Result<usize, Failed>
    ensures bound { WritesAtMost result piece.now }
    ensures some { IfOk result (λ n. 0 < n) }
    ensures bytes { WriteAppends (W.contents writer.old) (W.contents writer.new) result piece.now }
{
    'again: for _ in 0..=RETRIES {
        match writer.write(piece) {
            Ok(0) => return Err(Failed),
            Ok(count) => return Ok(count),
            Err(error) => {
                if error.kind() != ErrorKind::Interrupted {
                    return Err(Failed);
                }
            }
        }
    }
    Err(Failed)
}

/// The answer of a call. The count of faults rises where it failed.
fn counted(answer: Result<usize, Failed>, faults: &mut u64) -> Result<usize, Failed>
    ensures same { result ≡ answer }
    ensures cause { HasCause faults.old faults.new result }
    ensures faults { IsCounted faults.old faults.new result }
{
    if answer.is_err() {
        *faults = faults.saturating_add(1);
    }
    answer
}

/// A source over a reader, such as the standard input.
///
/// A call that is interrupted is tried again, at most 1,000 times, and then fails. It shows what
/// is left only where the reader does, as one over bytes in memory.
#[derive(Drop)]
pub struct FromReader<R: Read> {
    reader: R,
    faults: u64,
}

impl<R: Read> FromReader<R> {
    ghost use Rattle.xs_io.specs.Adapters.{reader_of, reader_faults};

    /// A source over this reader.
    pub fn new(reader: R) -> Self
        ensures reader { reader_of result ≡ reader }
        ensures faults { reader_faults result ≡ 0 }
    {
        FromReader { reader, faults: 0 }
    }
}

impl<R: Read> Source for FromReader<R> {
    ghost use Rattle.xs_io.specs.Adapters.{reader_of, reader_faults};

    ghost left = { λ s. R.remaining (reader_of s) };

    ghost faults = { λ s. reader_faults s };

    fn read(&mut self, buf: &mut [u8]) -> Result<usize, Failed>
        requires { 0 < length buf.old }
        ensures bound { ReadsAtMost result buf.new }
        ensures bytes { ReadConsumes (R.remaining (reader_of self.old))
            (R.remaining (reader_of self.new)) result buf.new }
        ensures kept { OnErr result (buf.new ≡ buf.old) }
        ensures cause { HasCause (reader_faults self.old) (reader_faults self.new) result }

        // Its count rises where it fails, and stays elsewhere.
        ensures faults { IsCounted (reader_faults self.old) (reader_faults self.new) result }
    {
        counted(read_whole(&mut self.reader, buf), &mut self.faults)
    }
}

/// A sink over a writer.
///
/// A call that is interrupted is tried again, at most 1,000 times, and then fails. So does a write
/// that takes nothing. What the sink took is what the writer took: nothing is flushed, so give it
/// a writer without a buffer, as the runtime's `stdout()` and `stderr()` are. It shows what it
/// took only where the writer does, as a vector.
#[derive(Drop)]
pub struct ToWriter<W: Write> {
    writer: W,
    faults: u64,
}

impl<W: Write> ToWriter<W> {
    ghost use Rattle.xs_io.specs.Adapters.{writer_of, writer_faults};

    /// A sink over this writer.
    pub fn new(writer: W) -> Self
        ensures writer { writer_of result ≡ writer }
        ensures faults { writer_faults result ≡ 0 }
    {
        ToWriter { writer, faults: 0 }
    }
}

impl<W: Write> Sink for ToWriter<W> {
    ghost use Rattle.xs_io.specs.Adapters.{writer_of, writer_faults};

    ghost taken = { λ s. W.contents (writer_of s) };

    ghost faults = { λ s. writer_faults s };

    fn write(&mut self, piece: &[u8]) -> Result<usize, Failed>
        requires { 0 < length piece.now }
        ensures bound { WritesAtMost result piece.now }
        ensures some { IfOk result (λ n. 0 < n) }
        ensures bytes { WriteAppends (W.contents (writer_of self.old))
            (W.contents (writer_of self.new)) result piece.now }
        ensures cause { HasCause (writer_faults self.old) (writer_faults self.new) result }

        // Its count rises where it fails, and stays elsewhere.
        ensures faults { IsCounted (writer_faults self.old) (writer_faults self.new) result }
    {
        counted(write_again(&mut self.writer, piece), &mut self.faults)
    }
}

/// A reader of the file of this name from this place on, which opens it at each read.
#[derive(Drop)]
struct FileFrom<'a, R: Files> {
    rt: &'a R,
    name: &'a str,
    at: u64,
}

impl<R: Files> Read for FileFrom<'_, R> {
    fn read(&mut self, buf: &mut [u8]) -> io::Result<usize> {
        let mut file = fs::open(self.rt, self.name)?;
        file.seek(SeekFrom::Start(self.at))?;
        file.read(buf)
    }
}

/// The files of a file system. A name is a path from the folder in which the program was started.
///
/// Each call opens its file. A call that is interrupted is tried again, at most 1,000 times, and
/// then fails. Its contracts say nothing of what the files hold, and it counts no bytes.
#[derive(Drop)]
pub struct DirShelf<'r, R: Files> {
    rt: &'r R,
    faults: u64,
}

impl<'r, R: Files> DirShelf<'r, R> {
    ghost use Rattle.xs_io.specs.Adapters.{dir_faults};

    /// A shelf over the files of this runtime.
    pub fn new(rt: &'r R) -> Self
        ensures { dir_faults result ≡ 0 }
    {
        DirShelf { rt, faults: 0 }
    }
}

impl<'r, R: Files> Shelf for DirShelf<'r, R> {
    ghost use Rattle.xs_io.specs.Adapters.{dir_faults, dir_name_faults};

    ghost files = { λ _. None };

    ghost faults = { λ s. dir_faults s };

    ghost name_faults = { λ s name. dir_name_faults s name };

    ghost given = { λ _. 0 };

    fn read_at(&mut self, name: &str, at: u64, buf: &mut [u8]) -> Result<usize, Failed>
        requires { 0 < length buf.old }
        ensures bound { ReadsAtMost result buf.new }
        ensures bytes { IfOk result (λ n. StandIn None name.now at (take n buf.new)) }
        ensures kept { OnErr result (buf.new ≡ buf.old) }
        ensures later { dir_faults self.old ≤ dir_faults self.new }
        ensures name_later { dir_name_faults self.old name.now ≤ dir_name_faults self.new name.now }
        ensures unmoved { OnOk result (dir_name_faults self.new name.now
            ≡ dir_name_faults self.old name.now) }
        ensures given { GivesAtMost 0 0 result }
        ensures failed { OnErr result (NameFailed None name.now
            (dir_faults self.old) (dir_faults self.new)
            (dir_name_faults self.old name.now) (dir_name_faults self.new name.now)) }

        // Its count rises where it fails, and stays elsewhere.
        ensures faults { IsCounted (dir_faults self.old) (dir_faults self.new) result }
    {
        let mut file = FileFrom {
            rt: self.rt,
            name,
            at,
        };
        counted(read_whole(&mut file, buf), &mut self.faults)
    }
}
