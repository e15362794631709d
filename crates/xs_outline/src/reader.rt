ghost use Rattle.std.specs.Prelude.{◌≡◌, ◌<◌, ◌≤◌, ◌+◌, ◌∷◌, ◌++◌, [], ℕ, List, None, Some, suc, length, slice_get, IsSome, IfOk, IfSome, OnOk, MatchBool, MatchOption};
ghost use Rattle.xs_gram.specs.{IsBuilt};
ghost use Rattle.xs_tree.specs.{tree_at, trees_of};
ghost use Rattle.xs_outline.specs.Lines.{line, production};
ghost use Rattle.xs_outline.specs.Machine.{EntryFits, MayCome, enter, give, next};
ghost use Rattle.xs_outline.specs.Parsed.{entry_meant};
ghost use Rattle.xs_outline.specs.Tables.{AreTables, kind_meant};
ghost use Rattle.xs_outline.specs.Reader.{child_at, frames, state, less, with_child, GoesFirst, HasRule, IsThere, IsClosed, IsFree, IsKept, IsNew, IsPlaceFor, IsStuckFirst, NoPlaceFor};
ghost use Rattle.xs_outline.specs.declared.reader.Open.{Open as AnyOpen};

use crate::children::{Children, child, gather, put};
use crate::line::{Entry, Parsed, read_line};
use crate::slot_table::{Kind, SlotTable};
use std::alloc::Global;
use xs_class::{Memory, Side, Sym};
use xs_pair::Two;
use xs_regex::Matcher;
use xs_tree::Builder;

/// A node that is open: its number, its production, the slot of its parent that it is for, and how
/// many children it lacks.
#[derive(Clone, Copy)]
pub struct Open {
    pub node: u64,
    pub rule: u32,
    pub slot: usize,
    pub missing: usize,
}

/// What was read of an outline: the nodes that are open, the innermost last, the parts of its tree so
/// far, the children that nodes have, those of the node that was closed last, and the root, once the
/// tree is whole.
#[derive(Drop)]
pub struct Reader {
    pub open: Vec<Open>,
    pub parts: Builder,
    pub children: Children,
    pub kids: Vec<u64>,
    pub root: Option<u64>,
}

/// The name of the root.
const ROOT: [Sym; 4] = [Sym(0x74), Sym(0x72), Sym(0x65), Sym(0x65)];

/// Whether the entry may stand where something of this kind may.
fn fits(matcher: &mut Matcher, two: &Two, kind: Kind, entry: &Entry) -> Result<bool, Memory>
    requires built { IsBuilt two.now.text }
    requires there { IsThere two.now (kind_meant kind) }
    ensures { IfOk result (λ b. MatchBool b (EntryFits two.now (Some (kind_meant kind)) (entry_meant entry.now))
        (EntryFits two.now (Some (kind_meant kind)) (entry_meant entry.now) → ⊥)) }
{
    let text = two.gram(Side::Text);
    match (kind, entry) {
        (Kind::Term(term), Entry::Leaf(word)) => matcher.accepts(text.term(term), word.as_slice()),
        (Kind::Non(non), Entry::Production(number)) => {
            Ok(*number < u64::from(text.rules()) && text.non_of(*number as u32) == non)
        }
        (Kind::Term(_), Entry::Production(_)) => Ok(false),
        (Kind::Non(_), Entry::Leaf(_)) => Ok(false),
    }
}

impl Reader {
    /// Nothing yet.
    pub fn new(alloc: Global) -> Result<Self, Memory>
        ensures { IfOk result IsNew }
    {
        Ok(Reader {
            parts: Builder::new(alloc)?,
            open: Vec::new(alloc),
            children: Children::new(alloc),
            kids: Vec::new(alloc),
            root: None,
        })
    }

    /// Where a line with this depth and name leads at the root.
    fn root_place(&self, two: &Two, depth: u64, name: &[Sym]) -> Option<(Kind, usize)>
        requires root { self.now.root ≡ None }
        requires open { self.now.open.items ≡ [] }
        ensures there { IfSome result (λ r. IsThere two.now (kind_meant r.0)) }
        ensures place { MatchOption result (NoPlaceFor two.now (state two.now self.now) depth name.now)
            (λ r. IsPlaceFor two.now (state two.now self.now) (frames two.now self.now) depth name.now (kind_meant r.0) r.1) }
    {
        if depth == 0 && name == &ROOT[..] {
            Some((Kind::Non(two.gram(Side::Text).start()), 0))
        } else {
            None
        }
    }

    /// Whether a node of that many slots has a child at one of them: not where it lacks all, which
    /// is told without a look into the map.
    fn has_child(&self, top: Open, count: usize, slot: usize) -> bool
        requires { top.missing ≡ count → child_at self.now.children top.node slot ≡ None }
        ensures { MatchBool result (IsSome (child_at self.now.children top.node slot)) (child_at self.now.children top.node slot ≡ None) }
    {
        top.missing != count && child(&self.children, top.node, slot).is_some()
    }

    /// Where a line with this depth and name leads in the innermost node.
    fn inner_place(
        &self,
        two: &Two,
        tables: &[SlotTable],
        top: Open,
        depth: u64,
        name: &[Sym],
    ) -> Option<(Kind, usize)>
        requires tables { AreTables two.now tables.now }
        requires kept { (bound : ℕ) × IsKept two.now bound self.now }
        requires root { self.now.root ≡ None }
        requires open { (front : List AnyOpen) × (self.now.open.items ≡ front ++ top ∷ []) }
        requires built { IsBuilt two.now.text }
        ensures there { IfSome result (λ r. IsThere two.now (kind_meant r.0)) }
        ensures place { MatchOption result (NoPlaceFor two.now (state two.now self.now) depth name.now)
            (λ r. IsPlaceFor two.now (state two.now self.now) (frames two.now self.now) depth name.now (kind_meant r.0) r.1) }
    {
        if depth != self.open.len() as u64 {
            return None;
        }
        let table = &tables[top.rule as usize];
        let Some(slot) = table.place(name) else {
            return None;
        };
        let count = table.kinds.len();
        if self.has_child(top, count, slot) {
            return None;
        }
        match table.kinds[slot] {
            Some(kind) => Some((kind, slot)),
            None => None,
        }
    }

    /// Where a line with this depth and name leads, if it may come next.
    fn place(
        &self,
        two: &Two,
        tables: &[SlotTable],
        depth: u64,
        name: &[Sym],
    ) -> Option<(Kind, usize)>
        requires tables { AreTables two.now tables.now }
        requires kept { (bound : ℕ) × IsKept two.now bound self.now }
        requires built { IsBuilt two.now.text }
        ensures there { IfSome result (λ r. IsThere two.now (kind_meant r.0)) }
        ensures place { MatchOption result (NoPlaceFor two.now (state two.now self.now) depth name.now)
            (λ r. IsPlaceFor two.now (state two.now self.now) (frames two.now self.now) depth name.now (kind_meant r.0) r.1) }
        ensures root { IfSome result (λ r. self.now.root ≡ None) }
    {
        if let Some(_) = self.root {
            return None;
        }
        match self.open.last() {
            Some(top) => self.inner_place(two, tables, *top, depth, name),
            None => self.root_place(two, depth, name),
        }
    }

    /// The innermost node, which is taken out, has a child from now on, and is put back: it lacks more.
    fn fill(&mut self, top: Open, slot: usize, part: u64) -> Result<(), Memory>
        requires { 1 < top.missing }
        ensures here { OnOk result (child_at self.new.children top.node slot ≡ Some part) }
        ensures others { OnOk result ((n s : ℕ) → (n ≡ top.node → s ≡ slot → ⊥) → child_at self.new.children n s ≡ child_at self.old.children n s) }
        ensures parts { OnOk result (self.new.parts ≡ self.old.parts) }
        ensures root { OnOk result (self.new.root ≡ self.old.root) }
        ensures open { OnOk result (self.new.open.items ≡ self.old.open.items ++ less top ∷ []) }
    {
        put(&mut self.children, top.node, slot, part)?;
        self.open.push(Open {
            node: top.node,
            rule: top.rule,
            slot: top.slot,
            missing: top.missing - 1,
        })?;
        Ok(())
    }

    /// Closes a node that lacks the child at `last` alone, which is given, and is taken out; the
    /// answer is its part. One of a single slot has that child alone.
    fn close(&mut self, top: Open, count: usize, last: usize, part: u64) -> Result<u64, Memory>
        requires below { (s kid : ℕ) → with_child (child_at self.old.children top.node) last part s ≡ Some kid → kid < length self.old.parts }
        requires full { (s : ℕ) → s < count → IsSome (with_child (child_at self.old.children top.node) last part s) }
        requires last { last < count }
        ensures { IfOk result (IsClosed self.old self.new top.node top.rule count last part) }
    {
        if count == 1 {
            let number = self.parts.node(top.rule, &[part])?;
            return Ok(number);
        }
        gather(&self.children, top.node, count, last, part, &mut self.kids)?;
        self.parts.node(top.rule, &self.kids)
    }

    /// Gives a tree to the innermost node, and closes the nodes that have all their children now.
    /// The last child of a node goes straight into its part.
    fn give(
        &mut self,
        two: &Two,
        tables: &[SlotTable],
        part: u64,
        slot: usize,
    ) -> Result<(), Memory>
        requires tables { AreTables two.now tables.now }
        requires kept { (bound : ℕ) × IsKept two.now bound self.old }
        requires root { self.old.root ≡ None }
        requires part { part < length self.old.parts }
        requires free { IsFree (frames two.now self.old) slot }
        ensures state { OnOk result (state two.now self.new ≡ give (frames two.now self.old) slot (tree_at (trees_of self.old.parts) part)) }
        ensures kept { OnOk result ((bound : ℕ) → IsKept two.now bound self.old → IsKept two.now bound self.new) }
    {
        let mut part = part;
        let mut slot = slot;
        'nodes: while let Some(top) = self.open.pop() {
            if top.missing > 1 {
                self.fill(top, slot, part)?;
                return Ok(());
            }
            let count = tables[top.rule as usize].kinds.len();
            part = self.close(top, count, slot, part)?;
            slot = top.slot;
        }
        self.root = Some(part);
        Ok(())
    }

    /// A node at a slot of the innermost node is open from now on, or closed at once where its
    /// production has no slots.
    fn open_node(
        &mut self,
        two: &Two,
        tables: &[SlotTable],
        number: u64,
        rule: u32,
        slot: usize,
    ) -> Result<(), Memory>
        requires tables { AreTables two.now tables.now }
        requires kept { IsKept two.now number self.old }
        requires root { self.old.root ≡ None }
        requires rule { rule < length two.now.text.rules }
        requires free { IsFree (frames two.now self.old) slot }
        ensures state { OnOk result (state two.now self.new ≡ enter two.now (frames two.now self.old) slot (production rule)) }
        ensures kept { OnOk result (IsKept two.now (suc number) self.new) }
    {
        let missing = tables[rule as usize].kinds.len();
        if missing > 0 {
            self.open.push(Open {
                node: number,
                rule,
                slot,
                missing,
            })?;
            return Ok(());
        }
        let part = self.parts.node(rule, &[])?;
        self.give(two, tables, part, slot)
    }

    /// The entry stands at a slot of the innermost node.
    fn enter(
        &mut self,
        two: &Two,
        tables: &[SlotTable],
        number: u64,
        slot: usize,
        entry: &Entry,
    ) -> Result<(), Memory>
        requires tables { AreTables two.now tables.now }
        requires kept { IsKept two.now number self.old }
        requires root { self.old.root ≡ None }
        requires rule { HasRule two.now (entry_meant entry.now) }
        requires small { length two.now.text.rules < 65536 }
        requires free { IsFree (frames two.now self.old) slot }
        ensures state { OnOk result (state two.now self.new ≡ enter two.now (frames two.now self.old) slot (entry_meant entry.now)) }
        ensures kept { OnOk result (IsKept two.now (suc number) self.new) }
    {
        match entry {
            Entry::Leaf(word) => {
                let part = self.parts.leaf(word.as_slice())?;
                self.give(two, tables, part, slot)
            }
            Entry::Production(rule) => self.open_node(two, tables, number, *rule as u32, slot),
        }
    }

    /// Takes a line with this depth, name and entry, if it may come next; nodes from a number on were
    /// not opened yet.
    fn take(
        &mut self,
        matcher: &mut Matcher,
        two: &Two,
        tables: &[SlotTable],
        number: u64,
        parsed: Parsed<'_>,
    ) -> Result<bool, Memory>
        requires tables { AreTables two.now tables.now }
        requires built { IsBuilt two.now.text }
        requires kept { IsKept two.now number self.old }
        ensures { IfOk result (λ b. MatchBool b
            (MayCome two.now (state two.now self.old) (line parsed.entry.depth parsed.entry.name.now (entry_meant parsed.entry.entry))
            × (state two.now self.new ≡ next two.now (state two.now self.old) (line parsed.entry.depth parsed.entry.name.now (entry_meant parsed.entry.entry)))
            × IsKept two.now (suc number) self.new)
            (MayCome two.now (state two.now self.old) (line parsed.entry.depth parsed.entry.name.now (entry_meant parsed.entry.entry)) → ⊥)) }
    {
        let Some(place) = self.place(two, tables, parsed.depth, parsed.name) else {
            return Ok(false);
        };
        if !fits(matcher, two, place.0, &parsed.entry)? {
            return Ok(false);
        }
        self.enter(two, tables, number, place.1, &parsed.entry)?;
        Ok(true)
    }

    /// Reads the first line of a text, if it spells one that may come next; the answer is what follows it.
    pub fn read<'d>(
        &mut self,
        alloc: Global,
        matcher: &mut Matcher,
        two: &Two,
        tables: &[SlotTable],
        number: u64,
        text: &'d [Sym],
    ) -> Result<Option<&'d [Sym]>, Memory>
        requires tables { AreTables two.now tables.now }
        requires built { IsBuilt two.now.text }
        requires kept { IsKept two.now number self.old }
        ensures { IfOk result (λ read. MatchOption read (IsStuckFirst two.now (state two.now self.old) text.now)
            (λ more. GoesFirst two.now (state two.now self.old) text.now more.now (state two.now self.new) × IsKept two.now (suc number) self.new)) }
    {
        let Some((parsed, more)) = read_line(alloc, text)? else {
            return Ok(None);
        };
        if self.take(matcher, two, tables, number, parsed)? {
            Ok(Some(more))
        } else {
            Ok(None)
        }
    }
}
