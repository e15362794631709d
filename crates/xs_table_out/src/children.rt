ghost use Rattle.std.specs.Prelude.{◌≡◌, ◌<◌, length};
ghost use Rattle.xs_table_out.specs.declared.children.Begin.TheVariants.{Here};
ghost use Rattle.xs_table_out.specs.Children.{after, stands, child_at};

use xs_gram::GItem;

/// Where a word of a node begins: where the node does, or where the item before it ends, whose part
/// has this number.
#[derive(Clone, Copy)]
pub enum Begin {
    Here,
    AfterWord(u32),
    AfterNode(u32),
}

/// What stands at a slot of a production, by the number of the part of its item: nothing, a word or
/// a node.
#[derive(Clone, Copy)]
pub enum Child {
    Nothing,
    Word { begin: Begin, part: u32 },
    Node { part: u32 },
}

/// Where an item begins that comes after the item of this part.
fn after(item: &GItem, part: u32) -> Begin
    ensures { result ≡ after part item.now }
{
    match item {
        GItem::Fixed(_) => Begin::AfterWord(part),
        GItem::Skip { .. } => Begin::AfterWord(part),
        GItem::Term { .. } => Begin::AfterWord(part),
        GItem::Non { .. } => Begin::AfterNode(part),
    }
}

/// What stands at a slot, if it is that of the item.
fn stands(item: &GItem, begin: Begin, part: u32, slot: u32) -> Option<Child>
    ensures { result ≡ stands begin part slot item.now }
{
    match item {
        GItem::Fixed(_) => None,
        GItem::Skip { .. } => None,
        GItem::Term { slot: own, .. } => {
            if *own == slot {
                Some(Child::Word { begin, part })
            } else {
                None
            }
        }
        GItem::Non { slot: own, .. } => {
            if *own == slot {
                Some(Child::Node { part })
            } else {
                None
            }
        }
    }
}

/// What stands at a slot of a production with these items.
pub fn child_at(items: &[GItem], slot: u32) -> Child
    requires { length items.now < 65536 }
    ensures { result ≡ child_at Here 0 slot items.now }
{
    let mut begin = Begin::Here;
    'items: for (dot, item) in items.iter().enumerate() {
        let part = dot as u32;
        if let Some(child) = stands(item, begin, part, slot) {
            return child;
        }
        begin = after(item, part);
    }
    Child::Nothing
}
