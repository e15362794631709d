ghost use Rattle.std.specs.Prelude.{IfOk, IfErr};
ghost use Rattle.xs_pair.specs.{IsSoundPair};
ghost use Rattle.xs_writing_laws.specs.{CanBeWritten};
ghost use Rattle.xs_top.specs.Answers.{IsOutlined, IsMadeOfOutline, IsUnread, IsNoOutline};
ghost use Rattle.xs_top.specs.Checks.{IsSure};
ghost use Rattle.xs_top.specs.Stops.{StopsBy};

use crate::documents::{characters_of, read_document};
use crate::stop::Stop;
use crate::turned::written;
use std::alloc::Global;
use xs_chars::Form;
use xs_class::{Bytes, Side};
use xs_outline::{read_outline, write_outline};
use xs_pair::Two;
use xs_turn::parse;
use xs_xml_laws::one_word;

/// The outline of the tree of a document on side `from`.
pub fn outlined(
    alloc: Global,
    two: &Two,
    from: Side,
    form: Form,
    bytes: &[u8],
) -> Result<Bytes, Stop>
    requires sound { IsSoundPair two.now }
    ensures answer { IfOk result (IsOutlined two.now from form bytes.now) }
    ensures stop { IfErr result (StopsBy (IsUnread two.now from form bytes.now)) }
{
    let doc = read_document(alloc, from, form, two.names(), bytes)?;
    let tree = parse(alloc, two, from, &doc)?;
    let outline = write_outline(alloc, two, &tree)?;
    Ok(outline)
}

/// The document on side `to` that has the tree of an outline.
pub fn made_of_outline(alloc: Global, two: &Two, to: Side, bytes: &[u8]) -> Result<Bytes, Stop>
    requires sound { IsSoundPair two.now }
    requires writable { CanBeWritten two.now }
    requires sure { IsSure two.now }
    ensures answer { IfOk result (IsMadeOfOutline two.now to bytes.now) }
    ensures stop { IfErr result (StopsBy (IsNoOutline two.now bytes.now)) }
{
    one_word();
    let characters = characters_of(alloc, Form::AsIs, bytes)?;
    let tree = read_outline(alloc, two, &characters)?;
    let document = written(alloc, two, to, &tree)?;
    Ok(document)
}
