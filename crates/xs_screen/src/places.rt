ghost use Rattle.std.specs.Prelude.{◌≡◌, ◌<◌, true, length};
ghost use Rattle.xs_gram.specs.{CutsAt, spread};
ghost use Rattle.xs_loose.specs.{IsPart};

use xs_coarse_net::Cover;
use xs_gram::{GItem, Gram};
use xs_loose::Part;

/// Whether an outer place of a cover stands right after a nonterminal of its rule.
pub fn follows_non(g: &Gram, rule: u32, cover: &Cover, index: usize) -> bool
    requires rule { rule < length g.now.rules }
    requires index { index < length cover.now.places.items }
{
    if index == 0 {
        return false;
    }
    let before = cover.places[index - 1].place;
    match g.spread(rule).get(before as usize) {
        Some(GItem::Non { .. }) => true,
        _ => false,
    }
}

/// Whether the cut at a place of a part's rule goes from the start to the end of the part. In time
/// linear in the place.
pub fn is_cut_of(g: &Gram, part: &Part, place: u32) -> bool
    requires { IsPart g.now part.now }
    ensures { result ≡ true → CutsAt g.now.fences (spread g.now part.now.rule) place part.now.start part.now.end }
{
    if place > part.end {
        return false;
    }
    let cut = g.cut(part.rule, place);
    cut.start == part.start && cut.end == part.end
}
