ghost use Rattle.std.specs.Prelude.{◌≡◌, ◌≤◌, ◌+◌, ◌++◌, [], length, IfOk, vec_capacity, vec_len};
ghost use Rattle.xs_talk.specs.Room.{line_bytes, line_spare, write_fault_line, longest_fault_line};

use itoa::Buffer;
use std::alloc::Global;
use xs_class::Memory;

const LONGEST_FAULT_LINE: usize = 59;

/// A list of bytes with room for more.
#[derive(Debug, Drop)]
pub struct Line {
    bytes: Vec<u8>,
}

impl Line {
    /// The bytes in order.
    pub fn as_slice(&self) -> &[u8]
        ensures { result.now ≡ line_bytes self.now }
    {
        &self.bytes
    }
}

/// Appends bytes for which there is room.
fn push_within(bytes: &mut Vec<u8>, piece: &[u8])
    requires { vec_len bytes.old + length piece.now ≤ vec_capacity bytes.old }
    ensures items { bytes.new.items ≡ bytes.old.items ++ piece.now }
    ensures length { vec_len bytes.new ≡ vec_len bytes.old + length piece.now }
    ensures room { vec_capacity bytes.old ≤ vec_capacity bytes.new }
{
    let _ = bytes.extend_from_slice(piece);
}

/// An empty line with room for the longest line of a write fault.
pub fn room(alloc: Global) -> Result<Line, Memory>
    ensures empty { IfOk result (λ line. line_bytes line ≡ []) }
    ensures spare { IfOk result (λ line. longest_fault_line ≤ line_spare line) }
{
    let bytes = Vec::with_capacity(alloc, LONGEST_FAULT_LINE)?;
    Ok(Line { bytes })
}

/// The line that reports how many bytes of the answer were written, in the room that was made for
/// it, without memory.
pub fn fault_line(room: Line, written: u64) -> Line
    requires empty { line_bytes room ≡ [] }
    requires spare { longest_fault_line ≤ line_spare room }
    ensures { line_bytes result ≡ write_fault_line written }
{
    let mut bytes = room.bytes;
    let mut digits = Buffer::new();
    let digits = digits.format(written).as_bytes();
    push_within(&mut bytes, b"output: cannot be written after ");
    push_within(&mut bytes, digits);
    push_within(&mut bytes, b" bytes\n");
    Line { bytes }
}
