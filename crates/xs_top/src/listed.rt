ghost use Rattle.std.specs.Prelude.{IfOk, IfErr};
ghost use Rattle.xs_class.specs.declared.side.Side.TheVariants as S;
ghost use Rattle.xs_chars.specs.declared.form.Form.TheVariants as F;
ghost use Rattle.xs_pair.specs.{IsSoundPair};
ghost use Rattle.xs_top.specs.Answers.{IsListingOf, IsUnread};
ghost use Rattle.xs_top.specs.Stops.{StopsBy};

use crate::documents::read_document;
use crate::stop::Stop;
use bumpalo::Bump;
use std::alloc::Global;
use xs_chars::Form;
use xs_class::{Bytes, Side};
use xs_pair::Two;
use xs_talk::listing;
use xs_turn::forest_of;

/// The listing of at most `max` derivations of a text.
pub fn listed(alloc: Global, two: &Two, max: u32, bytes: &[u8]) -> Result<Bytes, Stop>
    requires sound { IsSoundPair two.now }
    ensures answer { IfOk result (IsListingOf two.now max bytes.now) }
    ensures stop { IfErr result (StopsBy (IsUnread two.now S.Text F.AsIs bytes.now)) }
{
    let doc = read_document(alloc, Side::Text, Form::AsIs, two.names(), bytes)?;
    let bump = Bump::new(alloc);
    let grown = forest_of(alloc, &bump, two, Side::Text, &doc)?;
    let answer = listing(alloc, two, &grown, &doc, max)?;
    Ok(answer)
}
