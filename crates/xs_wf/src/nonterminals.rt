ghost use Rattle.std.specs.Prelude.{◌≡◌, ◌<◌, ◌&&◌, ℕ, false, None, length, slice_index_or, IfOk, IfSome};
ghost use Rattle.xs_gram.specs.{IsBuilt, DerivesItself};
ghost use Rattle.xs_order.specs.Order as O;
ghost use Rattle.xs_pair.specs.{IsFirstLine};
ghost use Rattle.xs_wf.specs.Nonterminals.{IsUnproductive, IsLooping, IsWordless, IsFirstLineOf, HaveOrderedLines, AreProductive, IsFirstNon, IsLineOf, IsLineOfSome};

use crate::least::lesser;
use std::alloc::Global;
use xs_class::{Memory, Side};
use xs_gram::Gram;
use xs_order::{Flags, OrderFault, productive, unit_order};
use xs_pair::Two;

/// Whether the nonterminal's flag is set on both sides.
fn is_set(text: &Flags, xml: &Flags, non: u32) -> bool
    requires text { non < length text.now }
    requires xml { non < length xml.now }
    ensures { result ≡ (slice_index_or text.now non false && slice_index_or xml.now non false) }
{
    *text.at(non as usize) && *xml.at(non as usize)
}

/// The first nonterminal whose flag is not set on both sides, where flags say which are productive.
fn first_unset(two: &Two, text: &Flags, xml: &Flags) -> Option<u32>
    requires same { two.now.text.nons ≡ two.now.xml.nons }
    requires text { O.AreProductive two.now.text text.now }
    requires xml { O.AreProductive two.now.xml xml.now }
    ensures first { IsFirstNon (IsWordless two.now) result }
    ensures fine { result ≡ None → AreProductive two.now }
{
    let nons = two.gram(Side::Text).nons();
    'nons: for non in 0..nons {
        if !is_set(text, xml, non) {
            return Some(non);
        }
    }
    None
}

/// The first nonterminal that derives no word on one of the sides.
fn first_unproductive(alloc: Global, two: &Two) -> Result<Option<u32>, Memory>
    ensures first { IfOk result (IsFirstNon (IsWordless two.now)) }
    ensures fine { IfOk result (λ non. non ≡ None → AreProductive two.now) }
{
    two.see();
    let text = productive(alloc, two.gram(Side::Text))?;
    let xml = productive(alloc, two.gram(Side::Xml))?;
    Ok(first_unset(two, &text, &xml))
}

/// The first nonterminal of a grammar that derives itself alone.
fn first_loop(alloc: Global, gram: &Gram) -> Result<Option<u32>, Memory>
    requires { IsBuilt gram.now }
    ensures { IfOk result (IsFirstNon (DerivesItself gram.now)) }
{
    match unit_order(alloc, gram) {
        Ok(_) => Ok(None),
        Err(OrderFault::Loop { non }) => Ok(Some(non)),
        Err(OrderFault::Memory) => Err(Memory),
    }
}

/// The first nonterminal that derives itself alone on one of the sides.
fn first_looping(alloc: Global, two: &Two) -> Result<Option<u32>, Memory>
    ensures { IfOk result (IsFirstNon (IsLooping two.now)) }
{
    two.see();
    let text = first_loop(alloc, two.gram(Side::Text))?;
    let xml = first_loop(alloc, two.gram(Side::Xml))?;
    Ok(lesser(text, xml))
}

/// The line of the nonterminal's first production, in time linear in the productions.
fn first_line(two: &Two, non: u32) -> u32
    requires { non < two.now.text.nons }
    ensures { IsLineOf two.now non result }
{
    two.see();
    let gram = two.gram(Side::Text);
    'rules: for rule in 0..gram.rules() {
        if gram.non_of(rule) == non {
            return two.line(rule);
        }
    }
    unreachable!()
}

/// The same of a nonterminal that may be none.
fn some_first_line(two: &Two, non: Option<u32>) -> Option<u32>
    requires { IfSome non (λ n. n < two.now.text.nons) }
    ensures { IsLineOfSome two.now non result }
{
    match non {
        None => None,
        Some(non) => Some(first_line(two, non)),
    }
}

/// The least line of the first production of a nonterminal that derives no word on one of the
/// sides.
///
/// Takes time and memory linear in the items of the rules and in the steps of the automata.
pub fn least_unproductive(alloc: Global, two: &Two) -> Result<Option<u32>, Memory>
    requires { HaveOrderedLines two.now.lines }
    ensures first { IfOk result (IsFirstLine (IsFirstLineOf two.now (IsUnproductive two.now))) }
    ensures fine { IfOk result (λ least. least ≡ None → AreProductive two.now) }
{
    two.see();
    let non = first_unproductive(alloc, two)?;
    Ok(some_first_line(two, non))
}

/// The least line of the first production of a nonterminal that derives itself alone on either
/// side.
///
/// Takes time and memory linear in the items of the rules.
pub fn least_loop(alloc: Global, two: &Two) -> Result<Option<u32>, Memory>
    requires { HaveOrderedLines two.now.lines }
    ensures first { IfOk result (IsFirstLine (IsFirstLineOf two.now (IsLooping two.now))) }
    ensures fine { IfOk result (λ least. least ≡ None → (n : ℕ) → IsLooping two.now n → ⊥) }
{
    two.see();
    let non = first_looping(alloc, two)?;
    Ok(some_first_line(two, non))
}
