ghost use Rattle.std.specs.Prelude.{◌≡◌, IfOk, IfErr};
ghost use Rattle.xs_top.specs.Stops.{StopsBy};
ghost use Rattle.xs_c.specs.Works.{IsWork, IsUndone, IsWorked, IsDone, IsNoRefusalOfSheet};

use crate::answer::{Answer, MEMORY, NOT_OPEN, refuse, tell};
use crate::kept::Kept;
use crate::sheet::Sheet;
use std::alloc::Global;
use xs_chars::Form;
use xs_class::{Bytes, Side};
use xs_talk::Outcome;
use xs_top::{DOCUMENT_LIMIT, Stop, made_of_outline, outline, play, turned_into};

/// What is done with a document by an open sheet.
#[derive(Clone, Copy)]
pub enum Work {
    /// A document of one side is read, a text in this form, and one of a side with the same tree is
    /// written.
    Turn { from: Side, to: Side, form: Form },
    /// A document of a side is read, a text in this form, and the outline of its tree is written.
    Outline { from: Side, form: Form },
    /// An outline is read, and the document of its tree on a side is written.
    Make { to: Side },
    /// An edit script is read, played and answered.
    Session,
}

/// The answer of a work by the two grammars of a sheet.
fn answer_of(alloc: Global, kept: &Kept, work: Work, document: &[u8]) -> Result<Bytes, Stop>
    ensures answer { IfOk result (IsWork kept.now work document.now) }
    ensures stop { IfErr result (StopsBy (IsUndone kept.now work document.now)) }
{
    if document.len() > DOCUMENT_LIMIT {
        return Err(Stop::Refused(Outcome::DocLong));
    }
    let two = kept.two();
    match work {
        Work::Turn { from, to, form } => turned_into(alloc, two, from, to, form, document),
        Work::Outline { from, form } => outline(alloc, two, from, form, document),
        Work::Make { to } => made_of_outline(alloc, two, to, document),
        Work::Session => play(alloc, two, document),
    }
}

/// Does a work by what is kept of a sheet, and tells C how it ended.
fn worked(alloc: Global, kept: &Kept, work: Work, document: &[u8], answer: &mut Answer) -> u32
    ensures { IsWorked kept.now work document.now answer.old answer.new result }
{
    match answer_of(alloc, kept, work, document) {
        Ok(bytes) => tell(answer, &Outcome::Done, bytes),
        Err(Stop::Refused(outcome)) => refuse(alloc, &outcome, kept.two().names(), answer),
        Err(Stop::Memory) => MEMORY,
    }
}

/// Does a work by the sheet, where it is open, and tells C how it ended.
pub fn done(
    alloc: Global,
    sheet: &mut Sheet,
    work: Work,
    document: &[u8],
    answer: &mut Answer,
) -> u32
    ensures kept { sheet.new.held.kept ≡ sheet.old.held.kept }
    ensures done { IsDone sheet.old.held.kept work document.now answer.old answer.new result }
    ensures accepted { IsNoRefusalOfSheet result }
{
    let Some(kept) = sheet.take(alloc) else {
        return NOT_OPEN;
    };
    let status = worked(alloc, &kept, work, document, answer);
    *sheet = Sheet::opened(kept);
    status
}
