ghost use Rattle.std.specs.Prelude.{◌≡◌, ◌<◌, ◌⊎◌, Some, None, set, get_or, length, IfOk, IfSome};
ghost use Rattle.xs_screen.specs.Screens.{AreNone, IsEndOf};

use crate::places::follows_non;
use std::alloc::Global;
use xs_class::Memory;
use xs_coarse::Tail;
use xs_coarse_net::Cover;
use xs_gram::Gram;

/// How many states the covers that are kept may have together.
const MOST_KEPT: u32 = 1 << 18;

/// What is kept of each rule for the searches beside other rules: the end of its cover's net, after
/// its last nonterminal, and the cover, where there was room for it; and how many states of covers
/// may still be kept.
#[derive(Drop)]
pub struct Kept {
    pub tails: Vec<Option<Tail>>,
    pub covers: Vec<Option<Cover>>,
    pub room: u32,
}

impl Kept {
    /// Nothing kept yet, of that many rules.
    pub fn none(alloc: Global, rules: u32) -> Result<Kept, Memory>
        ensures { IfOk result (AreNone rules) }
    {
        let mut tails = Vec::with_capacity(alloc, rules as usize)?;
        let mut covers = Vec::with_capacity(alloc, rules as usize)?;
        'rules: for _ in 0..rules {
            tails.push(None)?;
            covers.push(None)?;
        }
        Ok(Kept {
            tails,
            covers,
            room: MOST_KEPT,
        })
    }

    /// Keeps the end of a rule's cover, and the cover where there is room for it.
    pub fn keep(&mut self, rule: u32, tail: Tail, cover: Cover)
        requires tails { rule < length self.old.tails.items }
        requires covers { rule < length self.old.covers.items }
        ensures tails { self.new.tails.items ≡ set self.old.tails.items rule (Some tail) }
        ensures covers { (self.new.covers.items ≡ self.old.covers.items) ⊎ (self.new.covers.items ≡ set self.old.covers.items rule (Some cover)) }
    {
        self.tails[rule as usize] = Some(tail);
        let states = cover.net.len();
        if states <= self.room {
            self.room -= states;
            self.covers[rule as usize] = Some(cover);
        }
    }

    /// Takes out the cover that is kept of a rule, if one is.
    pub fn take(&mut self, rule: u32) -> Option<Cover>
        requires { rule < length self.old.covers.items }
        ensures tails { self.new.tails.items ≡ self.old.tails.items }
        ensures covers { self.new.covers.items ≡ set self.old.covers.items rule None }
        ensures taken { result ≡ get_or self.old.covers.items rule None }
    {
        let taken = self.covers[rule as usize].take();
        if let Some(cover) = &taken {
            self.room = self.room.saturating_add(cover.net.len());
        }
        taken
    }
}

/// The cover that is kept of a rule, or else the one that was made now.
pub fn held<'c>(
    covers: &'c [Option<Cover>],
    rule: u32,
    made: &'c Option<Cover>,
) -> Option<&'c Cover>
    requires { rule < length covers.now }
    ensures { IfSome result (λ c. (get_or covers.now rule None ≡ Some c.now) ⊎ (made.now ≡ Some c.now)) }
{
    match &covers[rule as usize] {
        Some(cover) => Some(cover),
        None => made.as_ref(),
    }
}

/// The end of the net of a rule's cover, after its last nonterminal, or none where it has no end to
/// be looked at. In time n log n of the cover.
pub fn tail_of(alloc: Global, g: &Gram, rule: u32, cover: &Cover) -> Result<Option<Tail>, Memory>
    requires { rule < length g.now.rules }
    ensures { IfOk result (λ o. IfSome o (IsEndOf cover.now)) }
{
    let _states = cover.net.len();
    let gate = last_gate(g, rule, cover);
    let tail = Tail::of(alloc, &cover.net, cover.last, gate)?;
    Ok(tail)
}

/// The state after the last nonterminal of a rule, or state 0 where there is none.
fn last_gate(g: &Gram, rule: u32, cover: &Cover) -> u32
    requires { rule < length g.now.rules }
{
    let mut gate = 0;
    'places: for index in 0..cover.places.len() {
        if follows_non(g, rule, cover, index) {
            gate = cover.places[index].state;
        }
    }
    gate
}
