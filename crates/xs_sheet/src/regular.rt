ghost use Rattle.std.specs.Prelude.{IfOk, MatchOption};
ghost use Rattle.xs_regex.specs.declared.regex.Regex.{Regex};
ghost use Rattle.xs_sheet.specs.Regular.{IsRegex};

use std::alloc::Global;
use xs_class::{Memory, Text};
use xs_regex::{Regex, RegexFault, read_regex};

/// The regular expression of a pattern, if it has one.
pub fn regex_of(alloc: Global, pattern: &Text) -> Result<Option<Regex>, Memory>
    ensures { IfOk result (λ o. MatchOption o ((r : Regex) → IsRegex pattern.now r → ⊥) (λ r. IsRegex pattern.now r)) }
{
    match read_regex(alloc, pattern.as_str()) {
        Ok(regex) => Ok(Some(regex)),
        Err(RegexFault::BadRegex) => Ok(None),
        Err(RegexFault::Memory) => Err(Memory),
    }
}
