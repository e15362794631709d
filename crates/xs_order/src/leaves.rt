ghost use Rattle.std.specs.Prelude.{◌≡◌, ◌<◌, true, false};
ghost use Rattle.std.specs.List.{All};
ghost use Rattle.xs_order.specs.Leaves.{is_good, all_good, IsIn};

use xs_gram::GItem;

/// Which items that are no nonterminals are good: whether fixed words are, and for each terminal
/// and each ignorable whether it is.
#[derive(Drop)]
pub struct Leaves {
    pub fixed: bool,
    pub terms: Vec<bool>,
    pub skips: Vec<bool>,
}

impl Leaves {
    /// Whether the item is good. Each nonterminal is.
    fn is_good(&self, item: &GItem) -> bool
        requires { IsIn self.now item.now }
        ensures { result ≡ is_good self.now item.now }
    {
        match item {
            GItem::Fixed(_) => self.fixed,
            GItem::Term { term, .. } => self.terms[*term as usize],
            GItem::Non { .. } => true,
            GItem::Skip { skip } => self.skips[*skip as usize],
        }
    }

    /// Whether all items are good.
    pub fn all_good(&self, items: &[GItem]) -> bool
        requires { All (IsIn self.now) items.now }
        ensures { result ≡ all_good self.now items.now }
    {
        'items: for item in items {
            if !self.is_good(item) {
                return false;
            }
        }
        true
    }
}
