ghost use Rattle.std.specs.Prelude.{◌≡◌, ◌<◌, true, get_or, length, IfOk, IfErr, IfSome, IfNone, OnOk};
ghost use Rattle.xs_gram.specs.{spread, AreComponents, IsBuilt, IsHorizontal};
ghost use Rattle.xs_check_laws.specs.{HasNoHorizontal, IsLight, ShowsHorizontal};
ghost use Rattle.xs_searches.specs.{IsCause, OverlapsAt};
ghost use Rattle.xs_screen.specs.{AreDoubts};
ghost use Rattle.xs_horiz.specs.Cuts.{IsFirstCut, HasNoCut};

use std::alloc::Global;
use xs_class::{Memory, Word};
use xs_gram::{Comps, Gram};
use xs_loose::Tables;
use xs_meet::Overlap;
use xs_searches::{CheckFault, Searches, light};

/// A cut of a rule, with words x, a and y, a not empty: x and xa are loose for its front, y and ay
/// for its rest. The cut is the number of spread items before it; front and rest go back and on to
/// the fences of the group round it, or to the ends of the rule.
#[derive(Debug, Drop)]
pub struct Horiz {
    pub rule: u32,
    pub cut: u32,
    pub x: Word,
    pub a: Word,
    pub y: Word,
}

/// The first horizontal suspect of a grammar, by the rule and then the cut, with any words that
/// show it, or none where there is none.
///
/// Fails with `Heavy` exactly where a rule weighs more than 8,192, with the weight of the first
/// such rule. Takes time linear in the pairs of states of the nets of the front and the rest of each
/// cut, times the edges of each state.
pub fn horizontal(alloc: Global, g: &Gram, comps: &Comps) -> Result<Option<Horiz>, CheckFault>
    requires built { IsBuilt g.now }
    requires comps { AreComponents g.now comps.now }
    ensures some { IfOk result (λ o. IfSome o (λ h. ShowsHorizontal g.now h.rule h.cut h.x h.a h.y)) }
    ensures none { IfOk result (λ o. IfNone o (HasNoHorizontal g.now)) }
    ensures light { OnOk result (IsLight g.now) }
    ensures fault { IfErr result (IsCause g.now) }
{
    let tables = Tables::of(alloc, g, comps)?;
    light(g, &tables.weights)?;
    let mut searches = Searches::of(alloc, g, comps, &tables)?;
    let found = first_horizontal(&mut searches)?;
    Ok(found)
}

/// The first horizontal suspect of a grammar whose rules are light, or none where there is none.
pub fn first_horizontal(searches: &mut Searches<'_>) -> Result<Option<Horiz>, Memory>
    ensures same { searches.new ≡ searches.old }
    ensures some { IfOk result (λ o. IfSome o (λ h. ShowsHorizontal searches.old h.rule h.cut h.x h.a h.y)) }
    ensures none { IfOk result (λ o. IfNone o (HasNoHorizontal searches.old)) }
{
    let g = searches.grammar();
    let mut doubts = Vec::new(searches.alloc());
    'rules: for rule in 0..g.rules() {
        let found = first_cut(searches, rule, &mut doubts)?;
        if let Some(horiz) = found {
            return Ok(Some(horiz));
        }
    }
    Ok(None)
}

/// The first cut of a rule at which front and rest overlap, where there is one.
fn first_cut(
    searches: &mut Searches<'_>,
    rule: u32,
    doubts: &mut Vec<bool>,
) -> Result<Option<Horiz>, Memory>
    requires rule { rule < length searches.old.rules }
    ensures same { searches.new ≡ searches.old }
    ensures some { IfOk result (λ o. IfSome o (IsFirstCut searches.old rule)) }
    ensures none { IfOk result (λ o. IfNone o (HasNoCut searches.old rule)) }
{
    let g = searches.grammar();
    let count = g.spread(rule).len() as u32;
    searches.doubts(rule, doubts)?;
    'cuts: for cut in 1..count {
        let found = overlap_at(searches, doubts, rule, cut)?;
        if let Some(Overlap { x, a, y }) = found {
            return Ok(Some(Horiz { rule, cut, x, a, y }));
        }
    }
    Ok(None)
}

/// Words by which the front and the rest of a rule overlap at a cut, where they do; at a cut that is
/// not in doubt they do not.
fn overlap_at(
    searches: &mut Searches<'_>,
    doubts: &[bool],
    rule: u32,
    cut: u32,
) -> Result<Option<Overlap>, Memory>
    requires doubts { AreDoubts searches.old rule doubts.now }
    requires rule { rule < length searches.old.rules }
    requires low { 0 < cut }
    requires high { cut < length (spread searches.old rule) }
    ensures same { searches.new ≡ searches.old }
    ensures some { IfOk result (λ o. IfSome o (λ w. IsHorizontal searches.old rule cut w.x w.a w.y)) }
    ensures none { IfOk result (λ o. IfNone o (OverlapsAt searches.old rule cut → ⊥)) }
{
    if is_doubted(doubts, cut) {
        return searches.overlap_at(rule, cut);
    }
    Ok(None)
}

/// Whether a cut is in doubt, as those beyond the list are.
fn is_doubted(doubts: &[bool], cut: u32) -> bool
    ensures { result ≡ get_or doubts.now cut true }
{
    match doubts.get(cut as usize) {
        Some(doubt) => *doubt,
        None => true,
    }
}
