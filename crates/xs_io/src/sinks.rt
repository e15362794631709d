ghost use Rattle.std.specs.Prelude.{◌≡◌, ◌≤◌, ◌<◌, ◌-◌, ◌↔◌, [], length, min, vec_capacity, vec_len, IfOk, IsErr};
ghost use Rattle.std.specs.Io.{WritesAtMost};
ghost use Rattle.std.specs.Io.KnownBytes.{WriteAppends};
ghost use Rattle.xs_io.specs.CallLog.{IsListed, Begins, IsCounted, fails_of, made_of, faults_of};
ghost use Rattle.xs_io.specs.Causes.{HasCause};

use crate::call_log::CallLog;
use crate::{Failed, Sink};
use std::alloc::Global;
use xs_class::{Bytes, Memory};

/// A sink in memory whose calls fail where their numbers are listed, and for want of memory.
#[derive(Debug, Drop)]
pub struct MemSink {
    bytes: Bytes,
    step: usize,
    calls: CallLog,
    ghost moves: { 0 < step },
}

impl MemSink {
    ghost use Rattle.xs_io.specs.Sinks.{mem_bytes, mem_step, mem_calls};

    /// A sink of which a call takes at most `step` bytes. `fails` lists the numbers, from 1, of
    /// the calls that fail.
    pub fn new(alloc: Global, step: usize, fails: Vec<u64>) -> Self
        requires { 0 < step }
        ensures bytes { mem_bytes result ≡ [] }
        ensures step { mem_step result ≡ step }
        ensures fails { fails_of (mem_calls result) ≡ fails.items }
        ensures made { made_of (mem_calls result) ≡ 0 }
        ensures faults { faults_of (mem_calls result) ≡ 0 }
    {
        MemSink {
            bytes: Bytes::new(alloc),
            step,
            calls: CallLog::new(fails),
        }
    }

    /// The bytes that it took.
    pub fn taken(&self) -> &[u8]
        ensures { result.now ≡ mem_bytes self.now }
    {
        self.bytes.as_slice()
    }
}

impl Sink for MemSink {
    ghost use Rattle.std.specs.Prelude.{Some};
    ghost use Rattle.xs_io.specs.Sinks.{mem_bytes, mem_step, mem_calls};

    ghost taken = { λ s. Some (mem_bytes s) };

    ghost faults = { λ s. faults_of (mem_calls s) };

    /// Takes as many bytes as the piece has and make a step.
    fn write(&mut self, piece: &[u8]) -> Result<usize, Failed>
        requires { 0 < length piece.now }
        ensures bound { WritesAtMost result piece.now }
        ensures some { IfOk result (λ n. 0 < n) }
        ensures bytes { WriteAppends (Some (mem_bytes self.old)) (Some (mem_bytes self.new))
            result piece.now }
        ensures cause { HasCause (faults_of (mem_calls self.old)) (faults_of (mem_calls self.new))
            result }

        // It fails where its number is listed; any other failure is want of memory.
        ensures listed { IsListed (mem_calls self.old) → IsErr result }
        ensures count { IfOk result (λ n. n ≡ min (mem_step self.old) (length piece.now)) }
        ensures counted { Begins (mem_calls self.old) (mem_calls self.new) }
        ensures faults { IsCounted (faults_of (mem_calls self.old)) (faults_of (mem_calls self.new))
            result }
        ensures step { mem_step self.new ≡ mem_step self.old }
    {
        self.calls.begin()?;
        let count = self.step.min(piece.len());
        if self.bytes.extend(&piece[..count]).is_err() {
            return Err(self.calls.fail());
        }
        Ok(count)
    }
}

/// A sink in memory that takes up to its room in bytes, without memory at any write, and fails
/// only once the room is used.
#[derive(Debug, Drop)]
pub struct SureSink {
    bytes: Vec<u8>,
    room: usize,
    faults: u64,
    ghost reserved: { room ≤ vec_capacity bytes },
    ghost within: { vec_len bytes ≤ room },
}

impl SureSink {
    ghost use Rattle.xs_io.specs.Sinks.{sure_bytes, sure_room, sure_faults};

    /// A sink with room for that many bytes.
    pub fn with_room(alloc: Global, room: usize) -> Result<Self, Memory>
        ensures bytes { IfOk result (λ s. sure_bytes s ≡ []) }
        ensures room { IfOk result (λ s. sure_room s ≡ room) }
        ensures faults { IfOk result (λ s. sure_faults s ≡ 0) }
    {
        Ok(SureSink {
            bytes: Vec::with_capacity(alloc, room)?,
            room,
            faults: 0,
        })
    }

    /// The bytes that it took.
    pub fn taken(&self) -> &[u8]
        ensures { result.now ≡ sure_bytes self.now }
    {
        &self.bytes
    }
}

impl Sink for SureSink {
    ghost use Rattle.std.specs.Prelude.{Some};
    ghost use Rattle.xs_io.specs.Sinks.{sure_bytes, sure_room, sure_faults};

    ghost taken = { λ s. Some (sure_bytes s) };

    ghost faults = { λ s. sure_faults s };

    /// Takes as many bytes as the piece has and find room.
    fn write(&mut self, piece: &[u8]) -> Result<usize, Failed>
        requires { 0 < length piece.now }
        ensures bound { WritesAtMost result piece.now }
        ensures some { IfOk result (λ n. 0 < n) }
        ensures bytes { WriteAppends (Some (sure_bytes self.old)) (Some (sure_bytes self.new))
            result piece.now }
        ensures cause { HasCause (sure_faults self.old) (sure_faults self.new) result }

        // It fails exactly where no room is left.
        ensures full { IsErr result ↔ (length (sure_bytes self.old) ≡ sure_room self.old) }
        ensures count { IfOk result (λ n. n ≡ min (length piece.now)
            (sure_room self.old - length (sure_bytes self.old))) }
        ensures faults { IsCounted (sure_faults self.old) (sure_faults self.new) result }
        ensures room { sure_room self.new ≡ sure_room self.old }
    {
        let count = piece.len().min(self.room - self.bytes.len());
        if count == 0 || self.bytes.extend_from_slice(&piece[..count]).is_err() {
            self.faults = self.faults.saturating_add(1);
            return Err(Failed);
        }
        Ok(count)
    }
}
