ghost use Rattle.std.specs.Prelude.{◌≡◌, ◌≢◌, ◌≤◌, ◌<◌, ◌+◌, ◌-◌, ◌^◌, ◌↔◌, ◌⊎◌, List, ℕ, None, length, min, take, IfOk, IsErr, OnOk, OnErr, encode_utf8_all};
ghost use Rattle.std.specs.Io.{ReadsAtMost};
ghost use Rattle.xs_io.specs.CallLog.{IsListed, Begins, IsCounted, fails_of, made_of, faults_of};
ghost use Rattle.xs_io.specs.Puts.{Puts};
ghost use Rattle.xs_io.specs.Shown.{StandIn, IsFull, GivesAtMost, NameFailed};

use crate::call_log::CallLog;
use crate::folder::Folder;
use crate::{Failed, Shelf};
use std::alloc::Global;
use xs_class::{Bytes, Memory, Text};

/// A shelf in memory whose calls fail exactly where their numbers are listed or their names are
/// not there.
#[derive(Debug, Drop)]
pub struct MemShelf {
    folder: Folder,
    calls: CallLog,
    given: u64,
}

impl MemShelf {
    ghost use Rattle.xs_io.specs.Shelves.{mem_file, mem_name_faults, mem_calls, mem_given};

    /// A shelf without files. `fails` lists the numbers, from 1, of the calls that fail.
    pub fn new(alloc: Global, fails: Vec<u64>) -> Self
        ensures files { (name : List ℕ) → mem_file result name ≡ None }
        ensures fails { fails_of (mem_calls result) ≡ fails.items }
        ensures made { made_of (mem_calls result) ≡ 0 }
        ensures faults { faults_of (mem_calls result) ≡ 0 }
        ensures given { mem_given result ≡ 0 }
    {
        MemShelf {
            folder: Folder::new(alloc),
            calls: CallLog::new(fails),
            given: 0,
        }
    }

    /// Gives the file of this name these bytes, in place of any that it had, in time linear in
    /// the number of files.
    pub fn add(&mut self, name: Text, bytes: Bytes) -> Result<(), Memory>
        ensures ok { OnOk result (Puts (mem_file self.old) (mem_file self.new)
            (encode_utf8_all name) bytes) }
        ensures err { OnErr result ((other : List ℕ) → mem_file self.new other
            ≡ mem_file self.old other) }
        ensures name_faults { (other : List ℕ) → mem_name_faults self.new other
            ≡ mem_name_faults self.old other }
        ensures calls { mem_calls self.new ≡ mem_calls self.old }
        ensures given { mem_given self.new ≡ mem_given self.old }
    {
        self.folder.put(name, bytes)
    }

    /// How many bytes its calls have given so far. The count stops at 2^64 - 1.
    pub fn given(&self) -> u64
        ensures { result ≡ mem_given self.now }
    {
        self.given
    }
}

impl Shelf for MemShelf {
    ghost use Rattle.std.specs.Prelude.{Some};
    ghost use Rattle.xs_io.specs.Shelves.{mem_file, mem_name_faults, mem_calls, mem_given};

    ghost files = { λ s. Some (mem_file s) };

    ghost faults = { λ s. faults_of (mem_calls s) };

    ghost name_faults = { λ s name. mem_name_faults s name };

    ghost given = { λ s. mem_given s };

    /// Gives as many bytes as stand there and fit the buffer.
    fn read_at(&mut self, name: &str, at: u64, buf: &mut [u8]) -> Result<usize, Failed>
        requires { 0 < length buf.old }
        ensures bound { ReadsAtMost result buf.new }
        ensures bytes { IfOk result (λ n. StandIn (Some (mem_file self.old)) name.now at
            (take n buf.new)) }
        ensures kept { OnErr result (buf.new ≡ buf.old) }
        ensures same { Some (mem_file self.new) ≡ Some (mem_file self.old) }
        ensures later { faults_of (mem_calls self.old) ≤ faults_of (mem_calls self.new) }
        ensures name_later { mem_name_faults self.old name.now ≤ mem_name_faults self.new name.now }
        ensures others { (other : List ℕ) → other ≢ name.now → mem_name_faults self.new other
            ≡ mem_name_faults self.old other }
        ensures unmoved { OnOk result (mem_name_faults self.new name.now
            ≡ mem_name_faults self.old name.now) }
        ensures given { GivesAtMost (mem_given self.old) (mem_given self.new) result }
        ensures failed { OnErr result (NameFailed (Some (mem_file self.old)) name.now
            (faults_of (mem_calls self.old)) (faults_of (mem_calls self.new))
            (mem_name_faults self.old name.now) (mem_name_faults self.new name.now)) }

        // It fails exactly where its number is listed or the name is not there.
        ensures fails { IsErr result ↔ (IsListed (mem_calls self.old)
            ⊎ (mem_file self.old name.now ≡ None)) }
        ensures count { IfOk result (λ n. IsFull (mem_file self.old name.now) at
            (length buf.old) n) }
        ensures counted { Begins (mem_calls self.old) (mem_calls self.new) }
        ensures faults { IsCounted (faults_of (mem_calls self.old)) (faults_of (mem_calls self.new))
            result }
        ensures sum { IfOk result (λ n. mem_given self.new ≡ min (mem_given self.old + n)
            (2 ^ 64 - 1)) }
    {
        if let Err(failed) = self.calls.begin() {
            self.folder.raise(name);
            return Err(failed);
        }
        let Some(count) = self.folder.read_at(name, at, buf) else {
            return Err(self.calls.fail());
        };
        self.given = self.given.saturating_add(count as u64);
        Ok(count)
    }
}

/// A shelf in memory whose calls fail exactly where their names are not there. It counts no bytes.
#[derive(Debug, Drop)]
pub struct SureShelf {
    folder: Folder,
    faults: u64,
}

impl SureShelf {
    ghost use Rattle.xs_io.specs.Shelves.{sure_file, sure_faults};

    /// A shelf without files.
    pub fn new(alloc: Global) -> Self
        ensures files { (name : List ℕ) → sure_file result name ≡ None }
        ensures faults { sure_faults result ≡ 0 }
    {
        SureShelf {
            folder: Folder::new(alloc),
            faults: 0,
        }
    }

    /// Gives the file of this name these bytes, in place of any that it had, in time linear in
    /// the number of files.
    pub fn add(&mut self, name: Text, bytes: Bytes) -> Result<(), Memory>
        ensures ok { OnOk result (Puts (sure_file self.old) (sure_file self.new)
            (encode_utf8_all name) bytes) }
        ensures err { OnErr result ((other : List ℕ) → sure_file self.new other
            ≡ sure_file self.old other) }
        ensures faults { sure_faults self.new ≡ sure_faults self.old }
    {
        self.folder.put(name, bytes)
    }
}

impl Shelf for SureShelf {
    ghost use Rattle.std.specs.Prelude.{Some};
    ghost use Rattle.xs_io.specs.Shelves.{sure_file, sure_faults};

    ghost files = { λ s. Some (sure_file s) };

    ghost faults = { λ s. sure_faults s };

    ghost name_faults = { λ _ _. 0 };

    ghost given = { λ _. 0 };

    /// Gives as many bytes as stand there and fit the buffer.
    fn read_at(&mut self, name: &str, at: u64, buf: &mut [u8]) -> Result<usize, Failed>
        requires { 0 < length buf.old }
        ensures bound { ReadsAtMost result buf.new }
        ensures bytes { IfOk result (λ n. StandIn (Some (sure_file self.old)) name.now at
            (take n buf.new)) }
        ensures kept { OnErr result (buf.new ≡ buf.old) }
        ensures same { Some (sure_file self.new) ≡ Some (sure_file self.old) }
        ensures later { sure_faults self.old ≤ sure_faults self.new }
        ensures given { GivesAtMost 0 0 result }
        ensures failed { OnErr result (NameFailed (Some (sure_file self.old)) name.now
            (sure_faults self.old) (sure_faults self.new) 0 0) }

        // It fails exactly where the name is not there.
        ensures fails { IsErr result ↔ (sure_file self.old name.now ≡ None) }
        ensures count { IfOk result (λ n. IsFull (sure_file self.old name.now) at
            (length buf.old) n) }
        ensures faults { IsCounted (sure_faults self.old) (sure_faults self.new) result }
    {
        match self.folder.read_at(name, at, buf) {
            Some(count) => Ok(count),
            None => {
                self.faults = self.faults.saturating_add(1);
                Err(Failed)
            }
        }
    }
}
