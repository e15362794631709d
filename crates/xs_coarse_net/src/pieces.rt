ghost use Rattle.std.specs.Prelude.{◌≡◌, ◌<◌, Some, List, [], ◌∷◌, length, slice_get, IfOk, OnOk};
ghost use Rattle.xs_gram.specs.declared.parts.GItem.{GItem as Item};
ghost use Rattle.xs_gram.specs.{spread};
ghost use Rattle.xs_loose.specs.{group_number, groups_count, StandsAt};
ghost use Rattle.xs_coarse.specs.{HasArc, group_label, CoversItem};
ghost use Rattle.xs_coarse_net.specs.Going.{Goes};
ghost use Rattle.xs_coarse_net.specs.Grounds.{IsGround};
ghost use Rattle.xs_coarse_net.specs.Joining.{AreFragments};
ghost use Rattle.xs_coarse_net.specs.Placing.{Placed};
ghost use Rattle.xs_coarse_net.specs.Sites.{IsSite};
ghost use Rattle.xs_coarse_net.specs.Stretches.{open_view, last_state, Extends};

use crate::ground::Ground;
use crate::join::{join_net, step_net};
use crate::labelled::{label_of_group, symbol_label};
use crate::leaves::leaf_at;
use crate::reach::block;
use crate::site::Site;
use xs_class::Sym;
use xs_coarse::{Coarse, Stop};
use xs_gram::GItem;

/// Goes on by the outer item or the group at a place of a rule, and gives the place after it.
pub(crate) fn add_piece(
    net: &mut Coarse,
    kept: &[Option<Coarse>],
    site: &Site<'_>,
    rule: u32,
    place: u32,
    number: u32,
) -> Result<u32, Stop>
    requires site { IsSite site.now }
    requires rule { rule < length site.now.g.now.rules }
    requires place { place < length (spread site.now.g.now rule) }
    requires number { number ≡ group_number site.now.g.now rule place }
    requires kept { AreFragments site.now.g.now site.now.labels.now kept.now }
    ensures extends { IfOk result (λ next. (rest : List Item) → StandsAt site.now.g.now rule place rest → Extends site.now.g.now site.now.labels.now rule place rest next net.old net.new) }
{
    let item = &site.g.spread(rule)[place as usize];
    match site.g.partner(rule, place) {
        Some(partner) => {
            add_group(net, site, number)?;
            Ok(partner + 1)
        }
        None => {
            add_item(net, kept, site, item)?;
            Ok(place + 1)
        }
    }
}

/// Goes on by a call of a group.
fn add_group(net: &mut Coarse, site: &Site<'_>, number: u32) -> Result<(), Stop>
    requires site { IsSite site.now }
    requires there { number < groups_count site.now.g.now }
    ensures placed { OnOk result (Placed net.old net.new (λ x. x)) }
    ensures call { OnOk result (HasArc net.new (last_state net.old) (group_label site.now.labels.now number) (last_state net.new)) }
{
    step_net(net, label_of_group(site, number))?;
    Ok(())
}

/// Goes on by an outer item.
fn add_item(
    net: &mut Coarse,
    kept: &[Option<Coarse>],
    site: &Site<'_>,
    item: &GItem,
) -> Result<(), Stop>
    requires site { IsSite site.now }
    requires kept { AreFragments site.now.g.now site.now.labels.now kept.now }
    ensures placed { OnOk result (Placed net.old net.new (λ x. x)) }
    ensures covers { OnOk result (CoversItem site.now.g.now (open_view site.now.labels.now net.new) item.now (last_state net.old) (last_state net.new)) }
{
    match item {
        GItem::Fixed(word) => {
            add_word(net, site, word.as_slice())?;
            Ok(())
        }
        GItem::Term { term, .. } => {
            join_net(net, leaf_at(&site.leaves.terms, *term)?)?;
            Ok(())
        }
        GItem::Skip { skip } => {
            join_net(net, leaf_at(&site.leaves.skips, *skip)?)?;
            Ok(())
        }
        GItem::Non { non, .. } => {
            join_net(net, fragment_at(kept, *non)?)?;
            Ok(())
        }
    }
}

/// Goes on by a fixed word, with an arc for each symbol.
fn add_word(net: &mut Coarse, site: &Site<'_>, word: &[Sym]) -> Result<(), Stop>
    ensures placed { OnOk result (Placed net.old net.new (λ x. x)) }
    ensures goes { OnOk result (Goes site.now.labels.now net.new (last_state net.old) word.now (last_state net.new)) }
{
    let _states = net.len();
    'symbols: for symbol in word {
        add_symbol(net, site, *symbol)?;
    }
    Ok(())
}

/// Goes on by a symbol. A symbol that has no label is one of a fence, and none of an outer item.
fn add_symbol(net: &mut Coarse, site: &Site<'_>, symbol: Sym) -> Result<(), Stop>
    ensures placed { OnOk result (Placed net.old net.new (λ x. x)) }
    ensures goes { OnOk result (Goes site.now.labels.now net.new (last_state net.old) (symbol ∷ []) (last_state net.new)) }
{
    match symbol_label(site, symbol) {
        Some(label) => {
            step_net(net, label)?;
            Ok(())
        }
        None => Err(Stop::Unfit),
    }
}

/// The fragment of a nonterminal, if it is kept.
fn fragment_at(kept: &[Option<Coarse>], non: u32) -> Result<&Coarse, Stop>
    ensures { IfOk result (λ net. slice_get kept.now non ≡ Some (Some net.now)) }
{
    match kept.get(non as usize) {
        Some(Some(fragment)) => Ok(fragment),
        _ => Err(Stop::Unfit),
    }
}

/// Makes the fragment of a nonterminal, if it is not kept yet.
pub(crate) fn keep_fragment(
    kept: &mut Vec<Option<Coarse>>,
    ground: &Ground<'_>,
    non: u32,
) -> Result<(), Stop>
    requires ground { IsGround ground.now }
    requires kept { AreFragments ground.now.site.g.now ground.now.site.labels.now kept.old.items }
    ensures long { OnOk result (non < length kept.new.items) }
    ensures kept { AreFragments ground.now.site.g.now ground.now.site.labels.now kept.new.items }
{
    if non as usize >= kept.len() {
        return Err(Stop::Unfit);
    }
    if kept[non as usize].is_none() {
        let made = block(ground, non)?;
        kept[non as usize] = Some(made);
    }
    Ok(())
}
