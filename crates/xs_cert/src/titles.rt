// Single lines.
ghost use Rattle.std.specs.Prelude.{[], ◌∷◌, drop, IfSome, IfNone};
ghost use Rattle.xs_cert_lines.specs.{spaced, ended, GoesOn};
ghost use Rattle.xs_cert.specs.Places.{IsPlace, IsPast};

use crate::place::Place;
use xs_cert_lines::{read_line, read_pair};

/// The place after a line, if it stands at the place.
pub fn title(bytes: &[u8], place: Place, line: &[u8]) -> Option<Place>
    requires { IsPlace bytes.now place }
    ensures some { IfSome result (IsPast bytes.now place (line.now ∷ [])) }
    ensures none { IfNone result (GoesOn (drop place.byte bytes.now) (ended line.now) → ⊥) }
{
    let byte = read_line(bytes, place.byte, line)?;
    Some(Place {
        byte,
        lines: place.lines + 1,
    })
}

/// The place after the line of a text and two numbers, if it stands at the place.
pub fn pair_title(bytes: &[u8], place: Place, text: &[u8], first: u32, second: u32) -> Option<Place>
    requires { IsPlace bytes.now place }
    ensures some { IfSome result (IsPast bytes.now place (spaced text.now (first ∷ second ∷ []) ∷ [])) }
    ensures none { IfNone result (GoesOn (drop place.byte bytes.now) (ended (spaced text.now (first ∷ second ∷ []))) → ⊥) }
{
    let byte = read_pair(bytes, place.byte, text, first, second)?;
    Some(Place {
        byte,
        lines: place.lines + 1,
    })
}
