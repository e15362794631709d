ghost use Rattle.std.specs.Prelude.{IfOk, IfErr};
ghost use Rattle.xs_pair.specs.{IsSoundPair};
ghost use Rattle.xs_top.specs.Scripts.{IsScriptPlayed, IsNoScript};
ghost use Rattle.xs_top.specs.Stops.{StopsBy};

use crate::documents::characters_of;
use crate::stop::Stop;
use std::alloc::Global;
use xs_chars::Form;
use xs_class::Bytes;
use xs_pair::Two;
use xs_script::play;

/// The lines that answer an edit script, whose characters are taken as they are.
pub fn played(alloc: Global, two: &Two, bytes: &[u8]) -> Result<Bytes, Stop>
    requires sound { IsSoundPair two.now }
    ensures answer { IfOk result (IsScriptPlayed two.now bytes.now) }
    ensures stop { IfErr result (StopsBy (IsNoScript bytes.now)) }
{
    let script = characters_of(alloc, Form::AsIs, bytes)?;
    let answer = play(alloc, two, &script)?;
    Ok(answer)
}
