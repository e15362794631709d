//! Devices that are interrupted, and one that is full. Those that fail are tried by `xs_run_tests`.
ghost use Rattle.std.specs.Prelude.{◌≤◌, IfOk};

use std::alloc::Global;
use std::io::{self, ErrorKind, Read, Write};
use xs_class::Memory;
use xs_io::{Failed, FromReader, Sink, Source, SureSink, ToWriter, WriteFault, put_all};

const ABC: &[u8] = b"abcdefg";

/// The answers of writing twice into this room, and whether it is full of both fronts.
fn fill(alloc: Global) -> Result<(Result<(), WriteFault>, Result<(), WriteFault>, bool), Memory> {
    let mut sink = SureSink::with_room(alloc, 9)?;
    let first = put_all(&mut sink, ABC);
    let second = put_all(&mut sink, ABC);
    Ok((first, second, sink.taken() == b"abcdefgab".as_slice()))
}

#[test]
fn a_sure_sink_takes_what_it_has_room_for(rt: HostRuntime) {
    let found = fill(rt.alloc());
    assert!(rt; found == Ok((Ok(()), Err(WriteFault { written: 2 }), true)));
}

/// A reader and writer of which that many calls are interrupted first.
#[derive(Drop)]
struct Interrupted {
    times: u32,
}

impl Interrupted {
    fn one(&mut self, room: usize) -> io::Result<usize>
        ensures { IfOk result (λ n. n ≤ room) }
    {
        if self.times == 0 {
            return Ok(room.min(1));
        }
        self.times -= 1;
        Err(ErrorKind::Interrupted.into())
    }
}

impl Read for Interrupted {
    fn read(&mut self, buf: &mut [u8]) -> io::Result<usize> {
        self.one(buf.len())
    }
}

impl Write for Interrupted {
    fn write(&mut self, buf: &[u8]) -> io::Result<usize> {
        self.one(buf.len())
    }

    fn flush(&mut self) -> io::Result<()> {
        Ok(())
    }
}

fn read_interrupted(times: u32) -> Result<usize, Failed> {
    let mut buf = [0u8; 4];
    FromReader::new(Interrupted { times }).read(&mut buf)
}

fn write_interrupted(times: u32) -> Result<usize, Failed> {
    ToWriter::new(Interrupted { times }).write(ABC)
}

#[test]
fn interrupted_calls_are_made_again_a_thousand_times(rt: HostRuntime) {
    assert!(rt; read_interrupted(1_000) == Ok(1));
    assert!(rt; read_interrupted(1_001) == Err(Failed));
    assert!(rt; write_interrupted(1_000) == Ok(1));
    assert!(rt; write_interrupted(1_001) == Err(Failed));
}
