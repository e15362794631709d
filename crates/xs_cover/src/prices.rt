ghost use Rattle.std.specs.Prelude.{◌≡◌, ◌+◌, ◌<◌, [], ◌∷◌, length};
ghost use Rattle.xs_gram.specs.{NamesAreThere, items};
ghost use Rattle.xs_cover.specs.Costs.{slots_cost, rule_cost};
ghost use Rattle.xs_cover.specs.Prices.{costs_of};
ghost use Rattle.xs_cover.specs.Sizes.{capped, fixed_length};
ghost use Rattle.xs_cover.specs.Tables.{at};

use xs_class::Side;
use xs_gram::{GItem, Gram};
use xs_pair::Two;

/// Costs are counted up to this, sizes too.
pub const MOST: u64 = 1_000_000_000;

/// The sum of two costs, as far as costs are counted.
pub fn sum_of(left: u64, right: u64) -> u64
    ensures { result ≡ capped (left + right) }
{
    left.saturating_add(right).min(MOST)
}

/// The number at a place of a table, 0 where there is none.
pub fn number_at(numbers: &[u64], place: u32) -> u64
    ensures { result ≡ at numbers.now place }
{
    numbers.get(place as usize).copied().unwrap_or(0)
}

/// The number of symbols that an item has of its own, an ignorable in its normal spelling.
fn own_item(g: &Gram, item: &GItem) -> u64
    requires { NamesAreThere g.now item.now }
    ensures { result ≡ fixed_length g.now (item.now ∷ []) }
{
    match item {
        GItem::Fixed(word) => word.len() as u64,
        GItem::Term { .. } | GItem::Non { .. } => 0,
        GItem::Skip { skip } => g.normal(*skip).len() as u64,
    }
}

/// The number of symbols that a rule has of its own on a side.
fn own_length(g: &Gram, rule: u32) -> u64
    ensures { result ≡ capped (fixed_length g.now (items g.now rule)) }
{
    if g.rules() <= rule {
        return 0;
    }
    let mut length = 0;
    'items: for item in g.items(rule) {
        length = sum_of(length, own_item(g, item));
    }
    length
}

/// What terminals cost, the length of a least word once for each side, and what nonterminals cost,
/// the size of the least tree that is known.
#[derive(Drop)]
pub struct Prices {
    pub terms: Vec<u64>,
    pub nons: Vec<u64>,
}

impl Prices {
    /// What the slot of an item costs.
    fn item_cost(&self, item: &GItem) -> u64
        ensures { result ≡ slots_cost (costs_of self.now) (item.now ∷ []) }
    {
        match item {
            GItem::Fixed(_) | GItem::Skip { .. } => 0,
            GItem::Term { term, .. } => number_at(&self.terms, *term),
            GItem::Non { non, .. } => number_at(&self.nons, *non),
        }
    }

    /// What the slots of a rule cost.
    fn slots_cost(&self, g: &Gram, rule: u32) -> u64
        requires { rule < length g.now.rules }
        ensures { result ≡ capped (slots_cost (costs_of self.now) (items g.now rule)) }
    {
        let mut cost = 0;
        'items: for item in g.items(rule) {
            cost = sum_of(cost, self.item_cost(item));
        }
        cost
    }

    /// What a production costs: its own symbols on both sides, and its slots.
    pub fn rule_cost(&self, two: &Two, rule: u32) -> u64
        requires { rule < length two.now.text.rules }
        ensures { result ≡ capped (rule_cost two.now.text two.now.xml (costs_of self.now) rule) }
    {
        let text = two.gram(Side::Text);
        let own = sum_of(
            own_length(text, rule),
            own_length(two.gram(Side::Xml), rule),
        );
        sum_of(own, self.slots_cost(text, rule))
    }
}
