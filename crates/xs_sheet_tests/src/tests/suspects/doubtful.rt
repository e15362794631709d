//! Small sheets, what a screen sees of two rules or of a cut of their text sides, and the suspects
//! that the definition gives.
ghost use Rattle.xs_gram.specs.{IsBuilt};

use super::{Horizontal, Vertical, suspects};
use std::alloc::Global;
use std::process::Abort;
use std::test::Fail;
use xs_class::Side;
use xs_gram::Gram;
use xs_loose::Tables;
use xs_order::components;
use xs_screen::Screen;
use xs_searches::CheckFault;
use xs_test_tools::pair_of;

/// Two rules of one nonterminal, or a rule and its cut.
#[derive(Clone, Copy, Debug)]
enum Asked {
    Pair(u32, u32),
    Cut(u32, u32),
}

/// A sheet, what is asked of a screen, whether it leaves that in doubt, and the first suspects.
#[derive(Clone, Copy)]
struct Row {
    sheet: &'static [u8],
    asked: Asked,
    is_doubted: bool,
    vertical: Vertical,
    horizontal: Horizontal,
}

const FIRST_PAIR: Row = Row {
    sheet: b"xsugar-1\nstart s\nterminal m = /[a-c]+/\ns : [m a] \"x\" = <a>[m a]</a>\n\
        s : \"bx\" = <b/>\ns : \"y\" = <c/>\n",
    asked: Asked::Pair(0, 1),
    is_doubted: true,
    vertical: Some((0, 1, 2)),
    horizontal: None,
};

const MIDDLE_PAIR: Row = Row {
    sheet: b"xsugar-1\nstart s\nterminal m = /[a-c]+/\ns : \"k\" = <a/>\n\
        s : [m a] \"x\" = <b>[m a]</b>\ns : \"bx\" = <c/>\ns : \"y\" = <d/>\n",
    asked: Asked::Pair(1, 2),
    is_doubted: true,
    vertical: Some((1, 2, 2)),
    horizontal: None,
};

const LAST_CUT: Row = Row {
    sheet: b"xsugar-1\nstart s\nterminal l = /[0-9]+/\nterminal m = /[a-c]*/\n\
        terminal n = /[c-z]*/\ns : \"k\" [l p] [m a] [n b] = <s p=[l p] a=[m a]>[n b]</s>\n",
    asked: Asked::Cut(0, 3),
    is_doubted: true,
    vertical: None,
    horizontal: Some((0, 3)),
};

const CUT_IN_A_GROUP: Row = Row {
    sheet: b"xsugar-2\nstart s\nterminal m = /[a-c]*/\nterminal n = /[c-z]*/\n\
        s : \"k\" \"(\" [m a] [n b] \")\" = <s a=[m a]>[n b]</s>\nfence \"(\" \")\"\n",
    asked: Asked::Cut(0, 3),
    is_doubted: true,
    vertical: None,
    horizontal: Some((0, 3)),
};

/// The cover of u returns from t into either of its rules, so it accepts "axd".
const PAIR_OF_A_WRONG_COVER: Row = Row {
    sheet: b"xsugar-1\nstart s\ns : [u a] = <s>[u a]</s>\ns : \"axd\" = <d/>\n\
        u : \"a\" [t b] \"b\" = <u>[t b]</u>\nu : \"c\" [t b] \"d\" = <v>[t b]</v>\n\
        t : \"x\" = <t/>\n",
    asked: Asked::Pair(0, 1),
    is_doubted: true,
    vertical: None,
    horizontal: None,
};

/// The cover of u accepts "ax" and "axd".
const CUT_OF_A_WRONG_COVER: Row = Row {
    sheet: b"xsugar-1\nstart s\nterminal n = /d*/\ns : [u a] [n b] = <s b=[n b]>[u a]</s>\n\
        u : \"a\" [t b] = <u>[t b]</u>\nu : \"c\" [t b] \"d\" = <v>[t b]</v>\nt : \"x\" = <t/>\n",
    asked: Asked::Cut(0, 1),
    is_doubted: true,
    vertical: None,
    horizontal: None,
};

/// Nothing overlaps where the front of a cut is empty, nor where its rest is.
const START_OF_A_GROUP: Row = Row {
    asked: Asked::Cut(0, 2),
    is_doubted: false,
    ..CUT_IN_A_GROUP
};

const END_OF_A_GROUP: Row = Row {
    asked: Asked::Cut(0, 4),
    is_doubted: false,
    ..CUT_IN_A_GROUP
};

/// The ends of two rules are apart, whatever their first items are.
const APART_BY_THEIR_ENDS: Row = Row {
    sheet: b"xsugar-1\nstart s\ns : [s a] \"b\" = <s>[s a]</s>\ns : [s a] \"c\" = <u>[s a]</u>\n\
        s : \"d\" = <t/>\n",
    asked: Asked::Pair(0, 1),
    is_doubted: false,
    vertical: None,
    horizontal: None,
};

/// Whether the screen of a grammar leaves what is asked in doubt.
fn is_doubted(alloc: Global, gram: &Gram, asked: Asked) -> Result<bool, CheckFault>
    requires { IsBuilt gram.now }
{
    let comps = components(alloc, gram)?;
    let tables = Tables::of(alloc, gram, &comps)?;
    let Some(mut screen) = Screen::of(alloc, gram, &tables.groups)? else {
        return Ok(true);
    };
    match asked {
        Asked::Pair(rule, rule2) => {
            if rule >= gram.rules() || rule2 >= gram.rules() {
                return Ok(true);
            }
            let apart = screen.are_apart(alloc, gram, &tables.groups, rule, rule2)?;
            Ok(!apart)
        }
        Asked::Cut(rule, cut) => {
            if rule >= gram.rules() {
                return Ok(true);
            }
            let mut doubts = Vec::new(alloc);
            screen.doubts(alloc, gram, &tables.groups, rule, &mut doubts)?;
            Ok(doubts.get(cut as usize) != Some(&false))
        }
    }
}

/// The screen leaves in doubt what the row says, and the suspects are those of the row.
fn expect_row(rt: &impl Abort, alloc: Global, row: &Row) -> Result<(), Fail> {
    let two = pair_of(alloc, row.sheet)?;
    let gram = two.gram(Side::Text);
    let asked = row.asked;
    let doubted = is_doubted(alloc, gram, asked)?;
    assert!(rt; doubted == row.is_doubted, "{asked:?}");
    let found = suspects(alloc, gram)?;
    assert!(rt;
        found == (row.vertical, row.horizontal),
        "{asked:?}: {found:?}"
    );
    Ok(())
}

#[test]
fn what_is_left_in_doubt_is_decided_exactly(rt: HostRuntime) -> Result<(), Fail> {
    expect_row(&rt, rt.alloc(), &FIRST_PAIR)?;
    expect_row(&rt, rt.alloc(), &MIDDLE_PAIR)?;
    expect_row(&rt, rt.alloc(), &LAST_CUT)?;
    expect_row(&rt, rt.alloc(), &CUT_IN_A_GROUP)?;
    expect_row(&rt, rt.alloc(), &PAIR_OF_A_WRONG_COVER)?;
    expect_row(&rt, rt.alloc(), &CUT_OF_A_WRONG_COVER)
}

#[test]
fn edges_of_groups_and_ends_leave_no_doubt(rt: HostRuntime) -> Result<(), Fail> {
    expect_row(&rt, rt.alloc(), &START_OF_A_GROUP)?;
    expect_row(&rt, rt.alloc(), &END_OF_A_GROUP)?;
    expect_row(&rt, rt.alloc(), &APART_BY_THEIR_ENDS)
}
