ghost use Rattle.std.specs.Prelude.{ℕ, length, IfSome, IfNone};
ghost use Rattle.xs_gram.specs.{NamesThere};
ghost use Rattle.xs_loose.specs.Weighing.{IsOneOf};

use xs_gram::{Comps, GItem};

/// The nonterminal that the item is, where it is of the component.
pub fn member_of(comps: &Comps, component: usize, item: &GItem) -> Option<u32>
    requires { (terms skips : ℕ) × NamesThere (length comps.now) terms skips item.now }
    ensures some { IfSome result (IsOneOf comps.now component item.now) }
    ensures none { IfNone result ((n : ℕ) → IsOneOf comps.now component item.now n → ⊥) }
{
    match item {
        GItem::Non { non, .. } => {
            if *comps.at(*non as usize) as usize == component {
                Some(*non)
            } else {
                None
            }
        }
        _ => None,
    }
}
