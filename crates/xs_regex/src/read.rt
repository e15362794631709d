ghost use Rattle.std.specs.Prelude.{◌≡◌, ◌+◌, ◌*◌, ◌<◌, ◌≤◌, [], ℕ, List, length, IfOk, IfErr, Some};
ghost use Rattle.std.specs.Str.{chars};
ghost use Rattle.xs_regex.specs.Links.{shape};
ghost use Rattle.xs_regex.specs.Matches.{Matches};
ghost use Rattle.xs_regex.specs.Meaning.{Means, IsPatternOf};
ghost use Rattle.xs_regex.specs.Pattern.{Tree, IsReading};
ghost use Rattle.xs_regex.specs.Scan.{regex_at};
ghost use Rattle.xs_regex.specs.Size.{size, sets, IsBounded};
ghost use Rattle.xs_regex.specs.declared.regex.Regex.{Regex as AnyRegex};

use crate::measure::size_up_to;
use crate::reader::regex;
use crate::{Regex, RegexFault};
use std::alloc::Global;
use xs_class::letters;

/// The regex that a pattern gives, in time linear in the pattern but for its classes.
///
/// `BadRegex` comes exactly where the pattern has no reading within the bounds: at most 2,048
/// characters, parentheses at most 64 deep, counts at most 64, and a size of at most 512.
pub fn read_regex(alloc: Global, pattern: &str) -> Result<Regex, RegexFault>
    ensures read { IfOk result (IsPatternOf (chars pattern.now)) }
    ensures small { IfOk result (λ r. size r ≤ 512) }
    ensures bounded { IfOk result IsBounded }
    ensures bad { IfErr result (λ e. e ≡ RegexFault.BadRegex → (t : Tree) → IsReading (chars pattern.now) t → ⊥) }
{
    let cs = match short_letters(alloc, pattern) {
        Ok(cs) => cs,
        Err(fault) => return Err(fault),
    };
    match whole(alloc, &cs) {
        Ok(r) => {
            if size_up_to(&r) <= 512 {
                Ok(r)
            } else {
                Err(RegexFault::BadRegex)
            }
        }
        Err(fault) => Err(fault),
    }
}

/// The characters of a pattern that is not too long.
fn short_letters(alloc: Global, pattern: &str) -> Result<Vec<char>, RegexFault>
    ensures same { IfOk result (λ cs. cs.items ≡ chars pattern.now) }
    ensures short { IfOk result (λ cs. length cs.items ≤ 2048) }
    ensures long { IfErr result (λ e. e ≡ RegexFault.BadRegex → 2048 < length (chars pattern.now)) }
{
    let cs = letters(alloc, pattern)?;
    if cs.len() > 2048 {
        return Err(RegexFault::BadRegex);
    }
    Ok(cs)
}

/// The regex of the whole list of characters.
fn whole(alloc: Global, cs: &[char]) -> Result<Regex, RegexFault>
    requires { length cs.now ≤ 2048 }
    ensures read { IfOk result (λ r. (t : Tree) × (regex_at (3 * length cs.now + 3) 64 cs.now ≡ Some (t, [])) × Means t r) }
    ensures bad { IfErr result (λ e. e ≡ RegexFault.BadRegex → (t : Tree) → regex_at (3 * length cs.now + 3) 64 cs.now ≡ Some (t, []) → ⊥) }
{
    match regex(alloc, 3 * cs.len() + 3, 64, cs) {
        Ok((r, left)) => {
            if left.is_empty() {
                Ok(r)
            } else {
                Err(RegexFault::BadRegex)
            }
        }
        Err(fault) => Err(fault),
    }
}

/// A pattern has at most one reading, and all regexes that it stands for match the same words, and
/// have one shape and the same classes.
pub fn one_regex()
    ensures tree { (pattern : List ℕ) (t u : Tree) → IsReading pattern t → IsReading pattern u → t ≡ u }
    ensures words { (pattern : List ℕ) (r q : AnyRegex) → IsPatternOf pattern r → IsPatternOf pattern q → (w : List ℕ) → Matches r w → Matches q w }
    ensures shape { (pattern : List ℕ) (r q : AnyRegex) → IsPatternOf pattern r → IsPatternOf pattern q → shape r ≡ shape q }
    ensures classes { (pattern : List ℕ) (r q : AnyRegex) → IsPatternOf pattern r → IsPatternOf pattern q → sets r ≡ sets q }
{}
