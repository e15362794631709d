ghost use Rattle.std.specs.Prelude.{◌≡◌, ◌≢◌, ◌≤◌, ◌<◌, List, ℕ, length, take, OnOk, OnErr, IfOk};
ghost use Rattle.std.specs.declared.option.Option.{Option};
ghost use Rattle.std.specs.Io.{ReadsAtMost, WritesAtMost};
ghost use Rattle.std.specs.Io.KnownBytes.{ReadConsumes, WriteAppends};
ghost use Rattle.xs_io.specs.Causes.{HasCause};
ghost use Rattle.xs_io.specs.Shown.{Files, StandIn, GivesAtMost, NameFailed};

/// How many bytes one read asks for at most, and moves at most.
pub(crate) const PIECE: usize = 65_536;

/// A call of a device failed. It took or gave nothing, left the caller's buffer as it was, and the
/// device's count of faults rose: it is greater after the call than before, or stands at 2^64 - 1.
#[derive(Clone, Copy, Debug, PartialEq, Eq)]
pub struct Failed;

/// What bytes are read from, in order.
pub trait Source {
    /// The bytes that are left, where the source shows them.
    ghost left: { Self → Option (List ℕ) };

    /// How often it has failed.
    ghost faults: { Self → ℕ };

    /// Moves bytes from the front of what is left to the front of the buffer, and answers how
    /// many: 0 exactly at the end.
    fn read(&mut self, buf: &mut [u8]) -> Result<usize, Failed>
        requires { 0 < length buf.old }
        ensures bound { ReadsAtMost result buf.new }
        ensures bytes { ReadConsumes (left self.old) (left self.new) result buf.new }
        ensures kept { OnErr result (buf.new ≡ buf.old) }
        ensures cause { HasCause (faults self.old) (faults self.new) result };
}

/// What bytes are written to, in order.
pub trait Sink {
    /// The bytes that it took, where the sink shows them.
    ghost taken: { Self → Option (List ℕ) };

    /// How often it has failed.
    ghost faults: { Self → ℕ };

    /// Appends a front of the piece to what was taken, and answers how long it is: at least 1.
    fn write(&mut self, piece: &[u8]) -> Result<usize, Failed>
        requires { 0 < length piece.now }
        ensures bound { WritesAtMost result piece.now }
        ensures some { IfOk result (λ n. 0 < n) }
        ensures bytes { WriteAppends (taken self.old) (taken self.new) result piece.now }
        ensures cause { HasCause (faults self.old) (faults self.new) result };
}

/// Files that are read by name, from any place on. A name counts by its UTF-8.
pub trait Shelf {
    /// Its files by name, where the shelf shows them.
    ghost files: { Self → Files };

    /// How often it has failed.
    ghost faults: { Self → ℕ };

    /// How often a call on the file of this name has failed.
    ghost name_faults: { Self → List ℕ → ℕ };

    /// How many bytes its calls have given so far; 0 where the shelf does not count them.
    ghost given: { Self → ℕ };

    /// Copies what stands in the file from the place `at` on to the front of the buffer, and
    /// answers how many bytes: 0 exactly at or past the file's end. A name that is not there is a
    /// failure, which no file's own count records.
    fn read_at(&mut self, name: &str, at: u64, buf: &mut [u8]) -> Result<usize, Failed>
        requires { 0 < length buf.old }
        ensures bound { ReadsAtMost result buf.new }
        ensures bytes { IfOk result (λ n. StandIn (files self.old) name.now at (take n buf.new)) }
        ensures kept { OnErr result (buf.new ≡ buf.old) }
        ensures same { files self.new ≡ files self.old }
        ensures later { faults self.old ≤ faults self.new }
        ensures name_later { name_faults self.old name.now ≤ name_faults self.new name.now }
        ensures others { (other : List ℕ) → other ≢ name.now → name_faults self.new other
            ≡ name_faults self.old other }
        ensures unmoved { OnOk result (name_faults self.new name.now
            ≡ name_faults self.old name.now) }
        ensures given { GivesAtMost (given self.old) (given self.new) result }
        ensures failed { OnErr result (NameFailed (files self.old) name.now
            (faults self.old) (faults self.new)
            (name_faults self.old name.now) (name_faults self.new name.now)) };
}
