ghost use Rattle.std.specs.Prelude.{◌≡◌, ◌≤◌, length, IfOk, false};
ghost use Rattle.std.specs.Str.{chars};
ghost use Rattle.xs_class.specs.declared.side.Side.TheVariants.{Text};
ghost use Rattle.xs_chars.specs.declared.form.Form.TheVariants.{AsIs};
ghost use Rattle.xs_chars.specs.{has_mark};
ghost use Rattle.xs_talk.specs.declared.outcome.Outcome.TheVariants.{Done};
ghost use Rattle.xs_top.specs.{IsNormalOf};
ghost use Rattle.xs_client.specs.Runs.{HasNoIgnorable, IsDoneOrSinkFault};

use crate::ran::{Two, run_on};
use crate::words::{command, round};
use std::alloc::Global;
use xs_class::Memory;
use xs_top::{round_is_idempotent, translates_back};

/// Translates a text to XML, and what was written back to text.
///
/// Where both runs are done, the second wrote the text with each ignorable in its normal spelling:
/// byte for byte the text, where it has no ignorables and begins with no byte order mark. Where the
/// first is done and wrote at most 1,048,576 bytes, the second is done or its sinks failed.
pub fn text_and_back(alloc: Global, sheet: &[u8], text: &[u8]) -> Result<Two, Memory>
    requires { length sheet.now ≤ 65536 }
    ensures normal { IfOk result (λ r. r.first.outcome ≡ Done → r.second.outcome ≡ Done
        → IsNormalOf sheet.now Text AsIs text.now r.second.written) }
    ensures same { IfOk result (λ r. r.first.outcome ≡ Done → r.second.outcome ≡ Done
        → HasNoIgnorable sheet.now text.now → has_mark (chars text.now) ≡ false
        → r.second.written ≡ text.now) }
    ensures ends { IfOk result (λ r. r.first.outcome ≡ Done → length r.first.written ≤ 1048576
        → IsDoneOrSinkFault r.second.outcome) }
{
    translates_back();
    let to_xml = command(alloc, "to-xml")?;
    let first = run_on(alloc, &to_xml, sheet, text)?;
    let to_text = command(alloc, "to-text")?;
    let second = run_on(alloc, &to_text, sheet, first.written.as_slice())?;
    Ok(Two { first, second })
}

/// Puts a text into its normal spelling, and what was written once more.
///
/// Where both runs are done they wrote the same. Where the first is done and wrote at most
/// 1,048,576 bytes, the second is done or its sinks failed.
pub fn round_twice(alloc: Global, sheet: &[u8], text: &[u8]) -> Result<Two, Memory>
    requires { length sheet.now ≤ 65536 }
    ensures same { IfOk result (λ r. r.first.outcome ≡ Done → r.second.outcome ≡ Done
        → r.second.written ≡ r.first.written) }
    ensures ends { IfOk result (λ r. r.first.outcome ≡ Done → length r.first.written ≤ 1048576
        → IsDoneOrSinkFault r.second.outcome) }
{
    round_is_idempotent();
    let words = round(alloc)?;
    let first = run_on(alloc, &words, sheet, text)?;
    let second = run_on(alloc, &words, sheet, first.written.as_slice())?;
    Ok(Two { first, second })
}
