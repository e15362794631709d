ghost use Rattle.std.specs.Prelude.{◌≡◌, ◌<◌, length, IfOk, IfErr, IfSome, IfNone, OnOk};
ghost use Rattle.xs_gram.specs.{AreComponents, IsBuilt, IsVertical};
ghost use Rattle.xs_check_laws.specs.{HasNoVertical, IsLight, ShowsVertical};
ghost use Rattle.xs_searches.specs.{IsCause};
ghost use Rattle.xs_vert.specs.Partners.{ArePartners, IsFirstPartner, HasNoPartner};

use std::alloc::Global;
use xs_class::{Memory, Word};
use xs_gram::{Comps, Gram};
use xs_loose::Tables;
use xs_searches::{CheckFault, Searches, light};

/// Two rules of one nonterminal, the smaller one first, and a word that is loose for both.
#[derive(Debug, Drop)]
pub struct Vert {
    pub rule: u32,
    pub rule2: u32,
    pub word: Word,
}

/// The first vertical suspect of a grammar, by the smaller rule and then the larger, with any word
/// that shows it, or none where there is none.
///
/// Fails with `Heavy` exactly where a rule weighs more than 8,192, with the weight of the first
/// such rule. Takes time linear in the pairs of states of the nets of each two rules of one
/// nonterminal, times the edges of each state.
pub fn vertical(alloc: Global, g: &Gram, comps: &Comps) -> Result<Option<Vert>, CheckFault>
    requires built { IsBuilt g.now }
    requires comps { AreComponents g.now comps.now }
    ensures some { IfOk result (λ o. IfSome o (λ v. ShowsVertical g.now v.rule v.rule2 v.word)) }
    ensures none { IfOk result (λ o. IfNone o (HasNoVertical g.now)) }
    ensures light { OnOk result (IsLight g.now) }
    ensures fault { IfErr result (IsCause g.now) }
{
    let tables = Tables::of(alloc, g, comps)?;
    light(g, &tables.weights)?;
    let mut searches = Searches::of(alloc, g, comps, &tables)?;
    let found = first_vertical(&mut searches)?;
    Ok(found)
}

/// The first vertical suspect of a grammar whose rules are light, or none where there is none.
pub fn first_vertical(searches: &mut Searches<'_>) -> Result<Option<Vert>, Memory>
    ensures same { searches.new ≡ searches.old }
    ensures some { IfOk result (λ o. IfSome o (λ v. ShowsVertical searches.old v.rule v.rule2 v.word)) }
    ensures none { IfOk result (λ o. IfNone o (HasNoVertical searches.old)) }
{
    let g = searches.grammar();
    'rules: for rule in 0..g.rules() {
        let found = first_partner(searches, rule)?;
        if let Some(vert) = found {
            return Ok(Some(vert));
        }
    }
    Ok(None)
}

/// The first rule after this one that shares a loose word with it, where there is one.
fn first_partner(searches: &mut Searches<'_>, rule: u32) -> Result<Option<Vert>, Memory>
    requires rule { rule < length searches.old.rules }
    ensures same { searches.new ≡ searches.old }
    ensures some { IfOk result (λ o. IfSome o (IsFirstPartner searches.old rule)) }
    ensures none { IfOk result (λ o. IfNone o (HasNoPartner searches.old rule)) }
{
    let g = searches.grammar();
    'partners: for rule2 in rule + 1..g.rules() {
        let shared = shared_word(searches, rule, rule2)?;
        if let Some(word) = shared {
            return Ok(Some(Vert { rule, rule2, word }));
        }
    }
    Ok(None)
}

/// A word that is loose for two rules, where both are of one nonterminal.
fn shared_word(searches: &mut Searches<'_>, rule: u32, rule2: u32) -> Result<Option<Word>, Memory>
    requires order { rule < rule2 }
    requires rule2 { rule2 < length searches.old.rules }
    ensures same { searches.new ≡ searches.old }
    ensures some { IfOk result (λ o. IfSome o (IsVertical searches.old rule rule2)) }
    ensures none { IfOk result (λ o. IfNone o (ArePartners searches.old rule rule2 → ⊥)) }
{
    let g = searches.grammar();
    if g.non_of(rule) != g.non_of(rule2) {
        return Ok(None);
    }
    searches.shared_word(rule, rule2)
}
