ghost use Rattle.std.specs.Prelude.{◌≡◌, ◌≢◌, ◌<◌, ◌≤◌, ◌↔◌, List, ℕ, None, length, take, OnOk, OnErr, IfSome, IfNone, IsNone, IsSome, encode_utf8_all};
ghost use Rattle.std.specs.Option.{option_copied};
ghost use Rattle.std.specs.List.{position_from};
ghost use Rattle.xs_io.specs.CallLog.{one_more};
ghost use Rattle.xs_io.specs.Folder.{is_named};
ghost use Rattle.xs_io.specs.Puts.{Puts};
ghost use Rattle.xs_io.specs.Shown.{StandAt, IsFull};

use crate::front::copy_front;
use std::alloc::Global;
use xs_class::{Bytes, Memory, Text};

/// A file in memory, and how often a call on it failed.
#[derive(Debug, Drop)]
pub(crate) struct File {
    name: Text,
    bytes: Bytes,
    faults: u64,
}

/// Files in memory by name.
#[derive(Debug, Drop)]
pub(crate) struct Folder {
    files: Vec<File>,
}

impl Folder {
    ghost use Rattle.xs_io.specs.Folder.{file_in, file_faults};

    pub(crate) fn new(alloc: Global) -> Self
        ensures { (name : List ℕ) → file_in result name ≡ None }
    {
        Folder {
            files: Vec::new(alloc),
        }
    }

    /// Gives the file of this name these bytes, in place of any that it had.
    pub(crate) fn put(&mut self, name: Text, bytes: Bytes) -> Result<(), Memory>
        ensures ok { OnOk result (Puts (file_in self.old) (file_in self.new)
            (encode_utf8_all name) bytes) }
        ensures faults { (other : List ℕ) → file_faults self.new other
            ≡ file_faults self.old other }
        ensures err { OnErr result ((other : List ℕ) → file_in self.new other
            ≡ file_in self.old other) }
    {
        match place_of(&self.files, name.as_str()) {
            Some(place) => self.files[place].bytes = bytes,
            None => self.files.push(File {
                name,
                bytes,
                faults: 0,
            })?,
        }
        Ok(())
    }

    /// The bytes of the file of this name.
    fn bytes_of(&self, name: &str) -> Option<&Bytes>
        ensures { option_copied result ≡ file_in self.now name.now }
    {
        let place = place_of(&self.files, name)?;
        Some(&self.files[place].bytes)
    }

    /// Copies as much as fits of what stands in the file from this place on, and answers how many
    /// bytes. `None`: there is no such file.
    pub(crate) fn read_at(&self, name: &str, at: u64, buf: &mut [u8]) -> Option<usize>
        requires { 0 < length buf.old }
        ensures none { IsNone result ↔ (file_in self.now name.now ≡ None) }
        ensures bound { IfSome result (λ n. n ≤ length buf.new) }
        ensures some { IfSome result (λ n. StandAt (file_in self.now name.now) at
            (take n buf.new)) }
        ensures full { IfSome result (λ n. IsFull (file_in self.now name.now) at
            (length buf.old) n) }
        ensures kept { IfNone result (buf.new ≡ buf.old) }
    {
        let bytes = self.bytes_of(name)?.as_slice();
        if at >= bytes.len() as u64 {
            return Some(0);
        }
        let most = buf.len();
        Some(copy_front(&bytes[at as usize..], buf, most))
    }

    /// A call on this name failed, which counts where there is such a file.
    pub(crate) fn raise(&mut self, name: &str)
        ensures files { file_in self.new ≡ file_in self.old }
        ensures counted { IsSome (file_in self.old name.now) → file_faults self.new name.now
            ≡ one_more (file_faults self.old name.now) }
        ensures uncounted { file_in self.old name.now ≡ None → file_faults self.new name.now
            ≡ file_faults self.old name.now }
        ensures others { (other : List ℕ) → other ≢ name.now → file_faults self.new other
            ≡ file_faults self.old other }
        ensures later { file_faults self.old name.now ≤ file_faults self.new name.now }
    {
        if let Some(place) = place_of(&self.files, name) {
            let file = &mut self.files[place];
            file.faults = file.faults.saturating_add(1);
        }
    }
}

/// The place of the first file of this name.
fn place_of(files: &[File], name: &str) -> Option<usize>
    ensures { result ≡ position_from (is_named name.now) 0 files.now }
{
    'files: for (place, file) in files.iter().enumerate() {
        if file.name.as_str() == name {
            return Some(place);
        }
    }
    None
}
