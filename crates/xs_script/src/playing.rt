ghost use Rattle.std.specs.Prelude.{◌≡◌, IfOk, IfErr};
ghost use Rattle.xs_gram.specs.{IsSound};
ghost use Rattle.xs_script.specs.Playing.{IsLinePlayed, IsPlayed};
ghost use Rattle.xs_script.specs.Requests.{IsUnplayed};

use crate::ScriptFault;
use crate::draft::Draft;
use crate::request::read_request;
use std::alloc::Global;
use xs_class::{Bytes, Memory, Sym, Word};
use xs_outline::first_line;
use xs_pair::Two;

/// Does what the line asks for, and appends the line that answers it; false where it asks for
/// nothing.
fn play_line(
    alloc: Global,
    draft: &mut Draft<'_>,
    text: &[Sym],
    out: &mut Bytes,
) -> Result<bool, Memory>
    ensures played { IfOk result (λ yes. IsLinePlayed draft.old.pair draft.old.document text.now out.old yes draft.new.document out.new) }
    ensures pair { draft.new.pair ≡ draft.old.pair }
{
    match read_request(alloc, text)? {
        Some(request) => {
            draft.answer(&request, out)?;
            Ok(true)
        }
        None => Ok(false),
    }
}

/// The answer of an edit script: a line for each of its lines, of the document as it then is.
///
/// `ScriptBad` comes exactly where a line spells no request, with the first such line, counted from
/// 1. Lines end in LF, and that of the last may be left out. In time linear in the script and, for
/// each edit, in what stands after it, beyond what the session takes to read the document when it is
/// asked about.
pub fn play(alloc: Global, two: &Two, script: &Word) -> Result<Bytes, ScriptFault>
    requires text { IsSound two.now.text }
    requires xml { IsSound two.now.xml }
    ensures played { IfOk result (IsPlayed two.now script.now) }
    ensures fault { IfErr result (IsUnplayed script.now) }
{
    let mut draft = Draft::begin(alloc, two)?;
    let mut out = Bytes::new(alloc);
    let mut rest = script.as_slice();
    let mut number: u64 = 0;
    'lines: while !rest.is_empty() {
        let (text, more) = first_line(rest);
        if !play_line(alloc, &mut draft, text, &mut out)? {
            return Err(ScriptFault::ScriptBad { line: number + 1 });
        }
        number += 1;
        rest = more;
    }
    Ok(out)
}
