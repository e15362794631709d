//! What the rules of small sheets weigh, and the nets that are made of them.
ghost use Rattle.std.specs.Prelude.{◌<◌, length};
ghost use Rattle.xs_gram.specs.{AreComponents, IsBuilt};

mod groups;

use std::alloc::Global;
use std::test::Fail;
use xs_class::Side;
use xs_gram::{Comps, Gram};
use xs_loose::{LooseFault, net_of, weight_of};
use xs_order::components;
use xs_screen::whole;
use xs_test_tools::pair_of;

/// Digits with commas between them, in brackets: the rule of the brackets, of one digit, and of a
/// list, a comma and a digit.
const LISTS: &[u8] =
    b"xsugar-1\nstart w\nterminal d = /[0-9]/\nw : \"<\" [l a] \">\" = <w>[l a]</w>\n\
    l : [d a] = <l>[d a]</l>\nl : [l a] \",\" [d b] = <l>[l a]<d>[d b]</d></l>\n";

/// What the items of a rule weigh, and the states of their net.
type Row = (u64, u32);

/// The row of a rule.
fn row_of(alloc: Global, gram: &Gram, comps: &Comps, rule: u32) -> Result<Row, LooseFault>
    requires built { IsBuilt gram.now }
    requires comps { AreComponents gram.now comps.now }
    requires rule { rule < length gram.now.rules }
{
    let part = whole(gram, rule);
    let weight = weight_of(alloc, gram, comps, &part)?;
    let net = net_of(alloc, gram, comps, &part)?;
    Ok((weight, net.len()))
}

/// Whether the rules have these rows.
fn have_rows(alloc: Global, gram: &Gram, wanted: &[Row]) -> Result<bool, LooseFault>
    requires { IsBuilt gram.now }
{
    let comps = components(alloc, gram)?;
    let mut have = gram.rules() as usize == wanted.len();
    for rule in 0..gram.rules() {
        let row = row_of(alloc, gram, &comps, rule)?;
        have = have && wanted.get(rule as usize).copied() == Some(row);
    }
    Ok(have)
}

/// A digit weighs 2, and a list 10: 2 for its entry and its exit, 3 for its first rule, and for its
/// second 1, 1 for the list, 1 for the comma and 2 for the digit.
const WANTED: [Row; 3] = [(12, 13), (2, 3), (13, 14)];

#[test]
fn a_net_has_a_state_more_than_its_items_weigh(rt: HostRuntime) -> Result<(), Fail> {
    let two = pair_of(rt.alloc(), LISTS)?;
    assert_eq!(rt;
        have_rows(rt.alloc(), two.gram(Side::Text), &WANTED),
        Ok(true)
    );
    Ok(())
}

/// Seventeen items, each of which weighs 501.
const WIDE: &[u8] = b"xsugar-1\nstart s\nterminal t = /([a-z]{50}){10}/\n\
    s : [t a] [t b] [t c] [t d] [t e] [t f] [t g] [t h] [t i] \
    [t j] [t k] [t l] [t m] [t n] [t o] [t p] [t q] = \
    <s>[t a] [t b] [t c] [t d] [t e] [t f] [t g] [t h] [t i] \
    [t j] [t k] [t l] [t m] [t n] [t o] [t p] [t q]</s>\n";

#[test]
fn a_part_that_is_too_heavy_has_no_net(rt: HostRuntime) -> Result<(), Fail> {
    let two = pair_of(rt.alloc(), WIDE)?;
    let found = have_rows(rt.alloc(), two.gram(Side::Text), &[]);
    assert_eq!(rt; found, Err(LooseFault::Heavy { weight: 8517 }));
    Ok(())
}
