ghost use Rattle.std.specs.Prelude.{◌≡◌, ◌≤◌, length};
ghost use Rattle.xs_closed.specs.{blank};
ghost use Rattle.xs_cert_lines.specs.Runs.{IsRun};

use crate::row::read_row;
use xs_closed::{PairSet, rows_are_marks};

/// Rows that were read: the byte after them, and how many there are.
#[derive(Clone, Copy, Debug)]
pub struct Run {
    pub end: usize,
    pub count: u64,
}

/// Reads rows into a set without pairs, from a byte on: as many as stand there.
///
/// The run ends before the first line that is no row of such a set or whose number is not greater
/// than that of the row before. Linear in the bytes up to the end of that line and in the words of
/// a row; takes no memory.
pub fn read_rows(bytes: &[u8], start: usize, set: &mut PairSet) -> Run
    requires within { start ≤ length bytes.now }
    requires blank { set.old ≡ blank (length set.old.rows) set.old.wide }
    ensures { IsRun bytes.now start (length set.old.rows) set.old.wide result.end result.count set.new }
{
    rows_are_marks();
    let high = set.high();
    let wide = set.wide();
    let mut end = start;
    let mut first = 0;
    let mut count = 0;
    'rows: while let Some((next, after)) = read_row(bytes, end, first, high, wide, set) {
        first = next;
        count += 1;
        end = after;
    }
    Run { end, count }
}
