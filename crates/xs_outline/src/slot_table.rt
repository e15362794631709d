ghost use Rattle.std.specs.Prelude.{◌≡◌, ◌<◌, ◌∷◌, [], ℕ, None, length, IfOk, MatchBool};
ghost use Rattle.std.specs.Str.{chars};
ghost use Rattle.xs_class.specs.{place_of};
ghost use Rattle.xs_gram.specs.{kinds as all_kinds, lookup, slots, Every, HasNumberedSlots};
ghost use Rattle.xs_outline.specs.Shapes.{names_of, slot_count, HasSlotNames};
ghost use Rattle.xs_outline.specs.Machine.{HasDistinctSlots};
ghost use Rattle.xs_outline.specs.Tables.{kind_in, either, name_list, IsTable, AreTables};

use crate::order::slots_in;
use indexmap::IndexSet;
use std::alloc::Global;
use xs_class::{Memory, Side, Sym, Text, word_of};
use xs_gram::GItem;
use xs_pair::Two;

/// What may stand at a slot: a word of a terminal, or a node of a nonterminal.
#[derive(Clone, Copy)]
pub enum Kind {
    Term(u32),
    Non(u32),
}

/// The slots of a production: their names in order, found in constant expected time, and what may
/// stand at each.
#[derive(Drop)]
pub struct SlotTable {
    pub names: IndexSet<Vec<Sym>>,
    pub kinds: Vec<Option<Kind>>,
}

/// The symbols of a name.
fn symbols(alloc: Global, name: &str) -> Result<Vec<Sym>, Memory>
    ensures { IfOk result (λ v. v.items ≡ chars name.now) }
{
    let text = Text::of(alloc, name)?;
    let word = word_of(alloc, &text)?;
    Ok(word.into_vec())
}

/// The names of that many slots of a production.
fn names_in(alloc: Global, two: &Two, rule: u32, count: usize) -> Result<IndexSet<Vec<Sym>>, Memory>
    requires distinct { HasDistinctSlots two.now }
    requires rule { rule < length two.now.slots }
    requires count { count ≡ slot_count two.now rule }
    requires few { count < 65536 }
    ensures { IfOk result (λ names. name_list names.keys ≡ names_of two.now rule) }
{
    let mut names = IndexSet::new(alloc);
    'slots: for slot in 0..count {
        let name = symbols(alloc, two.slot_name(rule, slot as u32))?;
        names.insert(name)?;
    }
    Ok(names)
}

/// Sets what may stand at the slot of an item, if it has one.
fn set_kind(kinds: &mut [Option<Kind>], item: &GItem)
    requires { Every (λ slot. slot < length kinds.old) (slots (item.now ∷ [])) }
    ensures { (s : ℕ) → s < length kinds.old → kind_in kinds.new s ≡ either (lookup s (all_kinds (item.now ∷ []))) (kind_in kinds.old s) }
{
    match item {
        GItem::Fixed(_) => {}
        GItem::Term { term, slot } => kinds[*slot as usize] = Some(Kind::Term(*term)),
        GItem::Non { non, slot } => kinds[*slot as usize] = Some(Kind::Non(*non)),
        GItem::Skip { .. } => {}
    }
}

/// Sets what may stand at each slot of the items, from the last to the first, so that the first
/// stays.
fn set_kinds(kinds: &mut [Option<Kind>], items: &[GItem])
    requires none { (s : ℕ) → kind_in kinds.old s ≡ None }
    requires slots { Every (λ slot. slot < length kinds.old) (slots items.now) }
    ensures { (s : ℕ) → s < length kinds.old → kind_in kinds.new s ≡ lookup s (all_kinds items.now) }
{
    'items: for done in 0..items.len() {
        set_kind(kinds, &items[items.len() - 1 - done]);
    }
}

/// What may stand at each of that many slots of the items.
fn kinds_in(alloc: Global, items: &[GItem], count: usize) -> Result<Vec<Option<Kind>>, Memory>
    requires { Every (λ slot. slot < count) (slots items.now) }
    ensures length { IfOk result (λ kinds. length kinds.items ≡ count) }
    ensures kinds { IfOk result (λ kinds. (s : ℕ) → s < count → kind_in kinds.items s ≡ lookup s (all_kinds items.now)) }
{
    let mut kinds = vec![in alloc; None; count]?;
    set_kinds(&mut kinds, items);
    Ok(kinds)
}

/// The slots of a production.
fn table(alloc: Global, two: &Two, rule: u32) -> Result<SlotTable, Memory>
    requires names { HasSlotNames two.now }
    requires distinct { HasDistinctSlots two.now }
    requires numbers { HasNumberedSlots two.now.text }
    requires rule { rule < length two.now.text.rules }
    ensures { IfOk result (IsTable two.now rule) }
{
    let items = two.gram(Side::Text).items(rule);
    let count = slots_in(items) as usize;
    let names = names_in(alloc, two, rule, count)?;
    let kinds = kinds_in(alloc, items, count)?;
    Ok(SlotTable { names, kinds })
}

/// The slots of each production, in time linear in the productions.
pub fn tables(alloc: Global, two: &Two) -> Result<Vec<SlotTable>, Memory>
    requires names { HasSlotNames two.now }
    requires distinct { HasDistinctSlots two.now }
    requires numbers { HasNumberedSlots two.now.text }
    ensures { IfOk result (λ rows. AreTables two.now rows.items) }
{
    let text = two.gram(Side::Text);
    let mut rows = Vec::with_capacity(alloc, text.rules() as usize)?;
    'rules: for rule in 0..text.rules() {
        let row = table(alloc, two, rule)?;
        rows.push(row)?;
    }
    Ok(rows)
}

/// Up to that many names are compared one by one, which costs less than to hash one.
const FEW: usize = 4;

/// Whether two names are the same. Names are short, so they are compared here symbol by symbol.
fn is_same(one: &[Sym], other: &[Sym]) -> bool
    ensures { MatchBool result (one.now ≡ other.now) (one.now ≡ other.now → ⊥) }
{
    if one.len() != other.len() {
        return false;
    }
    'symbols: for place in 0..one.len() {
        if one[place].number() != other[place].number() {
            return false;
        }
    }
    true
}

/// The place of a name among others, each compared with it.
fn place_among(names: &[Vec<Sym>], name: &[Sym]) -> Option<usize>
    ensures { result ≡ place_of (name_list names.now) name.now }
{
    'names: for place in 0..names.len() {
        if is_same(names[place].as_slice(), name) {
            return Some(place);
        }
    }
    None
}

impl SlotTable {
    /// The slot of this name, in constant expected time.
    pub fn place(&self, name: &[Sym]) -> Option<usize>
        ensures { result ≡ place_of (name_list self.now.names.keys) name.now }
    {
        if self.names.len() <= FEW {
            place_among(self.names.as_slice(), name)
        } else {
            self.names.get_index_of(name)
        }
    }
}
