ghost use Rattle.std.specs.Prelude.{◌≡◌, slice_get};
ghost use Rattle.xs_gram.specs.{items};
ghost use Rattle.xs_text_out.specs.Printed.{AreThere};

use xs_gram::{GItem, Gram};

/// The items of a production's rule, and none where the grammar has no such rule, as may be at a
/// part that its root does not reach.
pub fn items_of(g: &Gram, production: u32) -> &[GItem]
    ensures items { result.now ≡ items g.now production }
    ensures there { AreThere g.now result.now }
{
    if production < g.rules() {
        g.items(production)
    } else {
        &[]
    }
}

/// The child at a slot, where there is one.
pub fn kid_at(kids: &[u64], slot: u32) -> Option<u64>
    ensures { result ≡ slice_get kids.now slot }
{
    kids.get(slot as usize).copied()
}
