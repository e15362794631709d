ghost use Rattle.std.specs.Prelude.{IfOk};
ghost use Rattle.xs_pair.specs.Regexes.{IsCopyOf};

use std::alloc::Global;
use xs_class::Memory;
use xs_regex::Regex;

/// What stands round the part that is copied next. `First` and `One` hold the copied first part of
/// a sequence and of a choice.
#[derive(Drop)]
enum Frame {
    First(Regex),
    One(Regex),
    Any,
    Counted(u32, Option<u32>),
}

/// The same regex once more. It calls itself for what is nested, and goes along the parts of a
/// sequence or of a choice in a loop, from left to right and back.
pub fn copied_regex(alloc: Global, regex: &Regex) -> Result<Regex, Memory>
    ensures { IfOk result (IsCopyOf regex.now) }
{
    let mut frames = Vec::new(alloc);
    let mut rest = regex;
    let mut copy = 'parts: loop {
        match rest {
            Regex::Empty => break 'parts Regex::Empty,
            Regex::Set(class) => break 'parts Regex::Set(class.copy()?),
            Regex::Then(first, next) => {
                frames.push(Frame::First(copied_regex(alloc, first)?))?;
                rest = next;
            }
            Regex::Or(one, other) => {
                frames.push(Frame::One(copied_regex(alloc, one)?))?;
                rest = other;
            }
            Regex::Star(inner) => {
                frames.push(Frame::Any)?;
                rest = inner;
            }
            Regex::Times(inner, least, most) => {
                frames.push(Frame::Counted(*least, *most))?;
                rest = inner;
            }
        }
    };
    'frames: while let Some(frame) = frames.pop() {
        let inner = Box::new(alloc, copy)?;
        copy = match frame {
            Frame::First(first) => Regex::Then(Box::new(alloc, first)?, inner),
            Frame::One(one) => Regex::Or(Box::new(alloc, one)?, inner),
            Frame::Any => Regex::Star(inner),
            Frame::Counted(least, most) => Regex::Times(inner, least, most),
        };
    }
    Ok(copy)
}
