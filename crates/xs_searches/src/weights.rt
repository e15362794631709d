ghost use Rattle.std.specs.Prelude.{◌<◌, length, IfErr, OnOk};
ghost use Rattle.xs_gram.specs.{spread, IsBuilt};
ghost use Rattle.xs_check_laws.specs.{IsLight, RuleWeighs, InsidesWeigh};
ghost use Rattle.xs_loose.specs.{AreWeights};
ghost use Rattle.xs_searches.specs.Causes.{IsCause};
ghost use Rattle.xs_searches.specs.Insides.{Counts};

use crate::CheckFault;
use xs_gram::Gram;
use xs_loose::{CAP, HEAVIEST, Part, Weights, weight_by};
use xs_screen::whole;

/// Makes sure that each rule of a grammar weighs at most 8,192, by the weights of its components.
///
/// Takes no memory, and time linear in the grammar and in the lengths of the insides of its groups.
///
/// Fails with `Heavy` exactly where one weighs more, with the weight of the first such rule.
pub fn light(g: &Gram, weights: &Weights) -> Result<(), CheckFault>
    requires built { IsBuilt g.now }
    requires weights { AreWeights g.now weights.now }
    ensures light { OnOk result (IsLight g.now) }
    ensures fault { IfErr result (IsCause g.now) }
{
    'rules: for rule in 0..g.rules() {
        let weight = rule_weight(g, weights, rule);
        if weight > HEAVIEST {
            return Err(CheckFault::Heavy { weight });
        }
    }
    Ok(())
}

/// The weight of a rule: the greatest of 1 more than that of all its items, and of 1 more than that
/// of the inside of each of its groups.
fn rule_weight(g: &Gram, weights: &Weights, rule: u32) -> u64
    requires built { IsBuilt g.now }
    requires weights { AreWeights g.now weights.now }
    requires rule { rule < length g.now.rules }
    ensures { RuleWeighs g.now rule result }
{
    let items = weight_by(g, weights, &whole(g, rule));
    let insides = insides_weight(g, weights, rule);
    (items + 1).min(CAP).max(insides)
}

/// The greatest of what the groups of a rule count.
fn insides_weight(g: &Gram, weights: &Weights, rule: u32) -> u64
    requires built { IsBuilt g.now }
    requires weights { AreWeights g.now weights.now }
    requires rule { rule < length g.now.rules }
    ensures { InsidesWeigh g.now (spread g.now rule) result }
{
    let mut greatest = 0;
    'places: for place in 0..g.spread(rule).len() as u32 {
        let count = inside_count(g, weights, rule, place);
        greatest = greatest.max(count);
    }
    greatest
}

/// What the group that begins at a place of a rule counts: 1 more than what its inside weighs, and 0
/// where none begins there.
fn inside_count(g: &Gram, weights: &Weights, rule: u32, place: u32) -> u64
    requires built { IsBuilt g.now }
    requires weights { AreWeights g.now weights.now }
    requires rule { rule < length g.now.rules }
    requires place { place < length (spread g.now rule) }
    ensures { Counts g.now rule place result }
{
    match g.partner(rule, place) {
        Some(partner) => {
            let inside = Part {
                rule,
                start: place + 1,
                end: partner,
            };
            (weight_by(g, weights, &inside) + 1).min(CAP)
        }
        None => 0,
    }
}
