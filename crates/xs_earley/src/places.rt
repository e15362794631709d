ghost use Rattle.std.specs.Prelude.{◌≡◌, length, MatchOption};
ghost use Rattle.xs_gram.specs.declared.parts.GItem.{GItem};
ghost use Rattle.xs_gram.specs.{items, ItemAt, IsPlace};
ghost use Rattle.xs_chart_laws.specs.{next_of};

use xs_gram::{GItem, Gram, Place};

/// The item at the place, none at the end of a rule.
pub fn item_at(g: &Gram, place: Place) -> Option<&GItem>
    requires place { IsPlace g.now place }
    ensures { MatchOption result (place.dot ≡ length (items g.now place.rule)) (λ item. ItemAt g.now place.rule place.dot item.now) }
{
    g.items(place.rule).get(place.dot as usize)
}

/// The place after the item at the place.
pub fn after(g: &Gram, place: Place) -> Place
    requires place { IsPlace g.now place }
    requires item { (item : GItem) × ItemAt g.now place.rule place.dot item }
    ensures is { result ≡ next_of place }
    ensures place { IsPlace g.now result }
{
    let items = g.items(place.rule);
    if (place.dot as usize) < items.len() {
        Place {
            rule: place.rule,
            dot: place.dot + 1,
            inside: None,
        }
    } else {
        place
    }
}
