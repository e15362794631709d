ghost use Rattle.std.specs.Prelude.{◌≡◌, ◌≤◌, []};
ghost use Rattle.xs_talk.specs.{line_bytes, line_spare, longest_fault_line};
ghost use Rattle.xs_top.specs.Devices.{output_of};
ghost use Rattle.xs_top.specs.Ran.{IsWritten};

use crate::notes::told;
use xs_class::Names;
use xs_io::{Sink, WriteFault, put_all};
use xs_talk::{Line, Outcome, fault_line};

/// Writes an answer, and reports a fault of `out` in the room that was made for its line.
pub fn written<K: Sink, N: Sink>(
    out: &mut K,
    notes: &mut N,
    names: &Names,
    room: Line,
    answer: &[u8],
) -> Outcome
    requires names { names.now ≡ [] }
    requires empty { line_bytes room ≡ [] }
    requires spare { longest_fault_line ≤ line_spare room }
    ensures { IsWritten (output_of K.taken K.faults out.old out.new) (output_of N.taken N.faults notes.old notes.new) answer.now result }
{
    match put_all(out, answer) {
        Ok(()) => Outcome::Done,
        Err(WriteFault { written }) => {
            let line = fault_line(room, written);
            told(
                notes,
                names,
                line.as_slice(),
                Outcome::WriteFault { written },
            )
        }
    }
}
