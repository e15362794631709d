ghost use Rattle.std.specs.Prelude.{◌≡◌, ◌≤◌, ◌<◌, ◌↔◌, length, min, IfOk, OnErr, IsOk, IsErr};
ghost use Rattle.std.specs.Io.{ReadsAtMost};
ghost use Rattle.std.specs.Io.KnownBytes.{ReadConsumes};
ghost use Rattle.xs_io.specs.CallLog.{IsListed, Begins, IsCounted, fails_of, made_of, faults_of};
ghost use Rattle.xs_io.specs.Causes.{HasCause};

use crate::call_log::CallLog;
use crate::front::copy_front;
use crate::{Failed, Source};
use xs_class::Bytes;

/// A source in memory whose calls fail exactly where their numbers are listed.
#[derive(Debug, Drop)]
pub struct MemSource {
    bytes: Bytes,
    at: usize,
    step: usize,
    calls: CallLog,
    ghost in_bounds: { at ≤ length bytes },
    ghost moves: { 0 < step },
}

impl MemSource {
    ghost use Rattle.xs_io.specs.Sources.{mem_rest, mem_step, mem_calls};

    /// A source of these bytes, of which a call moves at most `step`. `fails` lists the numbers,
    /// from 1, of the calls that fail.
    pub fn new(bytes: Bytes, step: usize, fails: Vec<u64>) -> Self
        requires { 0 < step }
        ensures rest { mem_rest result ≡ bytes }
        ensures step { mem_step result ≡ step }
        ensures fails { fails_of (mem_calls result) ≡ fails.items }
        ensures made { made_of (mem_calls result) ≡ 0 }
        ensures faults { faults_of (mem_calls result) ≡ 0 }
    {
        MemSource {
            bytes,
            at: 0,
            step,
            calls: CallLog::new(fails),
        }
    }

    /// The bytes that are left.
    pub fn left(&self) -> &[u8]
        ensures { result.now ≡ mem_rest self.now }
    {
        &self.bytes.as_slice()[self.at..]
    }
}

impl Source for MemSource {
    ghost use Rattle.std.specs.Prelude.{Some};
    ghost use Rattle.xs_io.specs.Sources.{mem_rest, mem_step, mem_calls};

    ghost left = { λ s. Some (mem_rest s) };

    ghost faults = { λ s. faults_of (mem_calls s) };

    /// Moves as many bytes as are left, fit the buffer and make a step.
    fn read(&mut self, buf: &mut [u8]) -> Result<usize, Failed>
        requires { 0 < length buf.old }
        ensures bound { ReadsAtMost result buf.new }
        ensures bytes { ReadConsumes (Some (mem_rest self.old)) (Some (mem_rest self.new))
            result buf.new }
        ensures kept { OnErr result (buf.new ≡ buf.old) }
        ensures cause { HasCause (faults_of (mem_calls self.old)) (faults_of (mem_calls self.new))
            result }

        // It fails exactly where its number is listed.
        ensures listed { IsErr result ↔ IsListed (mem_calls self.old) }
        ensures count { IfOk result (λ n. n ≡ min (mem_step self.old)
            (min (length buf.old) (length (mem_rest self.old)))) }
        ensures counted { Begins (mem_calls self.old) (mem_calls self.new) }
        ensures faults { IsCounted (faults_of (mem_calls self.old)) (faults_of (mem_calls self.new))
            result }
        ensures step { mem_step self.new ≡ mem_step self.old }
    {
        self.calls.begin()?;
        let count = copy_front(&self.bytes.as_slice()[self.at..], buf, self.step);
        self.at += count;
        Ok(count)
    }
}

/// A source in memory that never fails.
#[derive(Debug, Drop)]
pub struct SureSource {
    bytes: Bytes,
    at: usize,
    ghost in_bounds: { at ≤ length bytes },
}

impl SureSource {
    ghost use Rattle.xs_io.specs.Sources.{sure_rest};

    /// A source of these bytes.
    pub fn new(bytes: Bytes) -> Self
        ensures { sure_rest result ≡ bytes }
    {
        SureSource { bytes, at: 0 }
    }

    /// The bytes that are left.
    pub fn left(&self) -> &[u8]
        ensures { result.now ≡ sure_rest self.now }
    {
        &self.bytes.as_slice()[self.at..]
    }
}

impl Source for SureSource {
    ghost use Rattle.std.specs.Prelude.{Some};
    ghost use Rattle.xs_io.specs.Sources.{sure_rest};

    ghost left = { λ s. Some (sure_rest s) };

    ghost faults = { λ _. 0 };

    /// Moves as many bytes as are left and fit the buffer.
    fn read(&mut self, buf: &mut [u8]) -> Result<usize, Failed>
        requires { 0 < length buf.old }
        ensures bound { ReadsAtMost result buf.new }
        ensures bytes { ReadConsumes (Some (sure_rest self.old)) (Some (sure_rest self.new))
            result buf.new }
        ensures kept { OnErr result (buf.new ≡ buf.old) }
        ensures cause { HasCause 0 0 result }
        ensures sure { IsOk result }
        ensures count { IfOk result (λ n. n ≡ min (length buf.old) (length (sure_rest self.old))) }
    {
        let most = buf.len();
        let count = copy_front(&self.bytes.as_slice()[self.at..], buf, most);
        self.at += count;
        Ok(count)
    }
}
