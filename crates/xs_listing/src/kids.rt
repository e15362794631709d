ghost use Rattle.std.specs.Prelude.{◌≡◌, ◌<◌, ◌≤◌, ◌++◌, ◌∷◌, [], length, slice_range, IfOk, OnOk};
ghost use Rattle.xs_gram.specs.{items, slots};
ghost use Rattle.xs_tree.specs.{Leaf};
ghost use Rattle.xs_gram.specs.{named, IsBuilt};
ghost use Rattle.xs_forest_laws.specs.{IsRight, Unfolding, read, IsFirst};
ghost use Rattle.xs_listing.specs.Making.{CanPlace, IsPlaced, CanGather, Extends, Fills};

use crate::rows::{FirstAlternative, first_step};
use xs_class::{Memory, Word};
use xs_forest::{Alt, Forest};
use xs_forest_laws::SpanKey;
use xs_gram::{GItem, Gram, slot_count};
use xs_tree::Builder;

/// A new leaf with the word of a stretch of the document.
fn add_leaf(doc: &Word, step: &FirstAlternative, builder: &mut Builder) -> Result<u64, Memory>
    requires start { step.now.start ≤ step.now.end }
    requires end { step.now.end ≤ length doc.now }
    ensures number { IfOk result (λ number. number ≡ length builder.old) }
    ensures added { OnOk result (builder.new ≡ builder.old ++ Leaf (slice_range doc.now step.now.start step.now.end) ∷ []) }
{
    let stretch = &doc.as_slice()[step.start as usize..step.end as usize];
    let number = builder.leaf(stretch)?;
    Ok(number)
}

/// Puts an item among the kids.
fn place(
    doc: &Word,
    numbers: &[u64],
    item: &GItem,
    step: &FirstAlternative,
    builder: &mut Builder,
    kids: &mut [u64],
) -> Result<(), Memory>
    requires { CanPlace doc.now numbers.now (length kids.old) item.now step.now }
    ensures { OnOk result (IsPlaced doc.now numbers.now item.now step.now builder.old kids.old builder.new kids.new) }
{
    match item {
        GItem::Fixed(_) | GItem::Skip { .. } => (),
        GItem::Term { slot, .. } => {
            let number = add_leaf(doc, step, builder)?;
            kids[*slot as usize] = number;
        }
        GItem::Non { slot, .. } => kids[*slot as usize] = numbers[step.right.unwrap() as usize],
    }
    Ok(())
}

/// Puts the parts of a node's kids, in the order of the slots, in place of others, with a new leaf
/// for each word of a terminal, in time linear in the rule's items and the words.
pub(crate) fn kids_of(
    g: &Gram,
    doc: &Word,
    forest: &Forest<'_, SpanKey>,
    numbers: &[u64],
    alt: Alt,
    builder: &mut Builder,
    kids: &mut Vec<u64>,
) -> Result<(), Memory>
    requires built { IsBuilt g.now }
    requires right { IsRight g.now doc.now forest.now }
    requires rule { alt.rule < length g.now.rules }
    requires gather { CanGather g.now doc.now forest.now builder.old numbers.now alt.rule alt.left }
    ensures long { OnOk result (length kids.new.items ≡ length (slots (items g.now alt.rule))) }
    ensures extends { OnOk result (Extends builder.old builder.new) }
    ensures kids { OnOk result ((u : Unfolding) → IsFirst forest.now alt.left u → Fills builder.new kids.new.items (named g.now (items g.now alt.rule) (read g.now doc.now forest.now alt.left u))) }
{
    let items = g.items(alt.rule);
    kids.clear();
    kids.resize(slot_count(items), 0)?;
    let mut dot = items.len();
    let mut front = alt.left;
    'fronts: while dot > 0 {
        dot -= 1;
        let step = first_step(forest, front.unwrap());
        place(doc, numbers, &items[dot], &step, builder, kids)?;
        front = step.left;
    }
    Ok(())
}
