ghost use Rattle.std.specs.Prelude.{◌≡◌, ◌≤◌, length, IfOk};
ghost use Rattle.std.specs.Str.{IsUtf8};
ghost use Rattle.xs_talk.specs.declared.outcome.Outcome.TheVariants.{Done};
ghost use Rattle.xs_top.specs.{RefusesSheet};
ghost use Rattle.xs_client.specs.Runs.{IsDecidedBy};

use crate::ran::{Two, run_on};
use crate::words::command;
use std::alloc::Global;
use xs_class::Memory;
use xs_top::{check_decides, refuses_exactly};

/// Checks a sheet, and then translates a text by it.
///
/// Where the check is done, the second run does not refuse the sheet; and a text of UTF-8 within
/// its limit is translated exactly where it is of the language, and is else foreign after its
/// longest viable prefix, or the sinks failed.
pub fn check_and_translate(alloc: Global, sheet: &[u8], text: &[u8]) -> Result<Two, Memory>
    requires { length sheet.now ≤ 65536 }
    ensures accepted { IfOk result (λ r. r.first.outcome ≡ Done → RefusesSheet r.second.outcome → ⊥) }
    ensures decided { IfOk result (λ r. r.first.outcome ≡ Done → IsUtf8 text.now → length text.now ≤ 1048576
        → IsDecidedBy sheet.now text.now r.second.outcome) }
{
    check_decides();
    refuses_exactly();
    let check = command(alloc, "check")?;
    let first = run_on(alloc, &check, sheet, &[])?;
    let to_xml = command(alloc, "to-xml")?;
    let second = run_on(alloc, &to_xml, sheet, text)?;
    Ok(Two { first, second })
}
