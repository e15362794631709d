//! The nest of a grammar's groups.
ghost use Rattle.xs_gram.specs.{IsBuilt};

use std::alloc::Global;
use std::test::Fail;
use xs_auto::Nest;
use xs_class::{Memory, Side, Sym};
use xs_gram::Gram;
use xs_loose::{LooseFault, nest_of};
use xs_order::components;
use xs_test_tools::pair_of;

/// Brackets in brackets, and braces round two letters.
const MARKS: &[u8] =
    b"xsugar-2\nstart s\nfence \"[\" \"]\"\nfence \"{\" \"}\"\nterminal l = /[a-z]/\n\
    s : \"[\" [l a] \"[\" [l b] \"]\" \"]\" \"{\" [l c] [l d] \"}\" = \
    <s>[l a][l b]<t>[l c]</t>[l d]</s>\n";

/// A group: its fence, and the states of the net for what it encloses.
type Row = (Sym, Sym, u32);

/// The groups in order.
fn rows(alloc: Global, nest: &Nest) -> Result<Vec<Row>, Memory> {
    let mut rows = Vec::with_capacity(alloc, nest.len() as usize)?;
    for group in 0..nest.len() {
        let (left, right) = nest.fence(group);
        rows.push((left, right, nest.states(group)))?;
    }
    Ok(rows)
}

/// The groups of a side.
fn rows_of(alloc: Global, g: &Gram) -> Result<Vec<Row>, LooseFault>
    requires { IsBuilt g.now }
{
    let comps = components(alloc, g)?;
    let nest = nest_of(alloc, g, &comps)?;
    let rows = rows(alloc, &nest)?;
    Ok(rows)
}

/// By the place of the left fence: a letter and a group weigh 2 each, and a net has one state more
/// than its content weighs.
const WANTED: [Row; 3] = [
    (Sym(91), Sym(93), 5),
    (Sym(91), Sym(93), 3),
    (Sym(123), Sym(125), 5),
];

#[test]
fn a_nest_has_each_group_in_order(rt: HostRuntime) -> Result<(), Fail> {
    let two = pair_of(rt.alloc(), MARKS)?;
    let rows = rows_of(rt.alloc(), two.gram(Side::Text))?;
    assert!(rt; rows.as_slice() == WANTED.as_slice());
    Ok(())
}

/// A group of seventeen items, each of which weighs 501.
const WIDE: &[u8] = b"xsugar-2\nstart s\nfence \"(\" \")\"\nterminal t = /([a-z]{50}){10}/\n\
    s : \"(\" [t a] [t b] [t c] [t d] [t e] [t f] [t g] [t h] [t i] \
    [t j] [t k] [t l] [t m] [t n] [t o] [t p] [t q] \")\" = \
    <s>[t a] [t b] [t c] [t d] [t e] [t f] [t g] [t h] [t i] \
    [t j] [t k] [t l] [t m] [t n] [t o] [t p] [t q]</s>\n";

#[test]
fn a_group_that_is_too_heavy_has_no_nest(rt: HostRuntime) -> Result<(), Fail> {
    let two = pair_of(rt.alloc(), WIDE)?;
    let fault = rows_of(rt.alloc(), two.gram(Side::Text)).err();
    assert!(rt; fault == Some(LooseFault::Heavy { weight: 8517 }));
    Ok(())
}
