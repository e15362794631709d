ghost use Rattle.std.specs.Prelude.{◌≡◌, ◌≤◌, ◌++◌, IfOk, OnOk};
ghost use Rattle.xs_leiden.specs.Made.{line as line_at, line_begin, lines as lines_of, after_line, made_text};
ghost use Rattle.xs_leiden.specs.Draws.{next};

use crate::draws::Draws;
use crate::items::{push_item, push_items};
use std::alloc::Global;
use xs_class::{Bytes, Memory};

/// Appends the number of a line, and whether it goes on with a word of the line before.
fn push_begin(alloc: Global, text: &mut Bytes, draws: &mut Draws, number: u32) -> Result<(), Memory>
    ensures text { OnOk result (text.new ≡ text.old ++ line_begin number draws.old.state) }
    ensures state { OnOk result (draws.new.state ≡ next draws.old.state) }
{
    let goes_on = draws.draw(4) == 0 && number > 1;
    let digits = format!(in alloc; "{number}")?;
    text.extend(digits.as_bytes())?;
    if goes_on {
        text.extend(b".- ")?;
    } else {
        text.extend(b". ")?;
    }
    Ok(())
}

/// Appends a line without its line feed.
fn push_line(alloc: Global, text: &mut Bytes, draws: &mut Draws, number: u32) -> Result<(), Memory>
    ensures text { OnOk result (text.new ≡ text.old ++ line_at number draws.old.state) }
    ensures state { OnOk result (draws.new.state ≡ after_line draws.old.state) }
{
    push_begin(alloc, text, draws, number)?;
    let more = draws.draw(5);
    push_item(text, draws)?;
    push_items(text, draws, more)?;
    Ok(())
}

/// Appends that many lines, numbered from 1.
fn push_lines(alloc: Global, text: &mut Bytes, draws: &mut Draws, count: u32) -> Result<(), Memory>
    ensures { OnOk result (text.new ≡ text.old ++ lines_of count draws.old.state) }
{
    'lines: for before in 0..count {
        push_line(alloc, text, draws, before + 1)?;
        text.push(b'\n')?;
    }
    Ok(())
}

/// The text of 1 to 2,000 lines that is made from a seed, in the notation of the sheet: `<=`, the
/// lines numbered from 1, and `=>`, each ended by a line feed. The same seed gives the same text.
/// Linear in the lines.
pub fn make_text(alloc: Global, seed: u32, lines: u32) -> Result<Bytes, Memory>
    requires least { 1 ≤ lines }
    requires most { lines ≤ 2000 }
    ensures { IfOk result (λ text. text ≡ made_text seed lines) }
{
    let mut text = Bytes::of(alloc, b"<=\n")?;
    let mut draws = Draws { state: seed };
    push_lines(alloc, &mut text, &mut draws, lines)?;
    text.extend(b"=>\n")?;
    Ok(text)
}
