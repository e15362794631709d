ghost use Rattle.std.specs.Prelude.{◌≡◌, [], ◌∷◌, IfOk, map, string_bytes, codes};

use std::alloc::Global;
use xs_class::Memory;

/// A command on the sheet.
pub fn command(alloc: Global, verb: &str) -> Result<Vec<String>, Memory>
    ensures { IfOk result (λ words. map string_bytes words.items ≡ verb.now ∷ codes "sheet" ∷ []) }
{
    let mut words = Vec::new(alloc);
    words.push(String::from_str(alloc, verb)?)?;
    words.push(String::from_str(alloc, "sheet")?)?;
    Ok(words)
}

/// A text is to be put into its normal spelling.
pub fn round(alloc: Global) -> Result<Vec<String>, Memory>
    ensures { IfOk result (λ words. map string_bytes words.items ≡ codes "round" ∷ codes "sheet" ∷ codes "text" ∷ []) }
{
    let mut words = command(alloc, "round")?;
    words.push(String::from_str(alloc, "text")?)?;
    Ok(words)
}
