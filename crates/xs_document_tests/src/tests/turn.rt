ghost use Rattle.xs_pair.specs.{IsSoundPair};

use std::alloc::Global;
use std::process::Abort;
use std::test::Fail;
use xs_chars::{Form, read_text};
use xs_class::Side;
use xs_pair::Two;
use xs_test_tools::{SPACED, two_of};
use xs_tree::{Tree, same};
use xs_turn::parse;

fn tree_of(alloc: Global, two: &Two, text: &[u8]) -> Result<Tree, Fail>
    requires { IsSoundPair two.now }
{
    let doc = read_text(alloc, text, Form::AsIs)?;
    let tree = parse(alloc, two, Side::Text, &doc)?;
    Ok(tree)
}

/// Whether two texts have the same tree.
fn have_same(alloc: Global, two: &Two, one: &[u8], other: &[u8]) -> Result<bool, Fail>
    requires { IsSoundPair two.now }
{
    let first = tree_of(alloc, two, one)?;
    let second = tree_of(alloc, two, other)?;
    Ok(same(alloc, &first, &second)?)
}

/// Texts of the pairs with spaces, and whether their trees are the same.
const TEXTS: &[(&[u8], &[u8], bool)] = &[
    (b"(3,7)", b"( 3,  7 )", true),
    (b"(3,7)", b"(7,3)", false),
];

fn expect_same(rt: &impl Abort, alloc: Global, two: &Two) -> Result<(), Fail>
    requires { IsSoundPair two.now }
{
    for (one, other, expected) in TEXTS {
        let found = have_same(alloc, two, one, other)?;
        assert_eq!(rt; found, *expected);
    }
    Ok(())
}

#[test]
fn spellings_of_one_document_have_the_same_tree(rt: HostRuntime) -> Result<(), Fail> {
    let two = two_of(rt.alloc(), SPACED.as_bytes())?;
    expect_same(&rt, rt.alloc(), &two)
}
