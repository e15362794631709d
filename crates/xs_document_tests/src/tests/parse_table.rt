//! Parse tables made by hand of small documents: right ones, and such as are wrong in one place.
ghost use Rattle.xs_atoms.specs.{AreAtoms};
ghost use Rattle.xs_gram.specs.{IsBuilt};

use std::alloc::Global;
use std::process::Abort;
use std::test::Fail;
use xs_atoms::Atoms;
use xs_class::{Memory, Side, Sym};
use xs_gram::Gram;
use xs_lr::PADDING;
use xs_parse_table::{Node, ParseTable, Validator};
use xs_test_tools::{pair_of, word_of};

/// A nest and a number: rules 0 and 1 are those of s, 2 and 3 of t, and 4 is that of u.
const SHEET: &[u8] = b"xsugar-1\nstart s\nterminal d = /[0-9]+/\nignorable w = / */ \"\"\n\
    s : [t a] [w] \"->\" [d b] = <s>[t a]<n>[d b]</n></s>\n\
    s : \"!\" [u a] = <x>[u a]</x>\n\
    t : \"(\" [t a] \")\" = <t>[t a]</t>\n\
    t : \"ab\" = <ab/>\n\
    u : \"ab\" = <u/>\n";

/// What is tried, a document, and the nodes and the parts of a table.
///
/// A node is four numbers: its production, the place of its first part, and the places of the
/// document from which and up to which it goes. Two spaces stand between nodes.
type Row<'t> = (&'t str, &'t str, &'t str, &'t str);

/// Whether the table passes the check of the document.
pub fn passes(
    alloc: Global,
    g: &Gram,
    atoms: &Atoms,
    doc: &[Sym],
    table: &ParseTable,
) -> Result<bool, Memory>
    requires built { IsBuilt g.now }
    requires atoms { AreAtoms g.now atoms.now }
{
    let validator = Validator::of(alloc, g, atoms)?;
    let word = atoms.word(alloc, doc, PADDING)?;
    Ok(validator.validate(g, doc, &word, table))
}

fn numbers_of(alloc: Global, text: &str) -> Result<Vec<u32>, Memory> {
    let mut numbers = Vec::new(alloc);
    for word in text.split_whitespace() {
        match word.parse::<u32>() {
            Ok(number) => numbers.push(number)?,
            Err(_) => return Err(Memory),
        }
    }
    Ok(numbers)
}

fn node_of(numbers: &[u32]) -> Result<Node, Memory> {
    match numbers {
        [production, parts, from, to] => Ok(Node {
            production: *production,
            parts: *parts,
            from: *from,
            to: *to,
        }),
        _ => Err(Memory),
    }
}

fn table_of(alloc: Global, nodes: &str, parts: &str) -> Result<ParseTable, Memory> {
    let numbers = numbers_of(alloc, nodes)?;
    let mut nodes = Vec::new(alloc);
    for node in numbers.chunks(4) {
        nodes.push(node_of(node)?)?;
    }
    let parts = numbers_of(alloc, parts)?;
    Ok(ParseTable { nodes, parts })
}

/// Whether the row's table passes the check of its document.
fn row_passes(alloc: Global, g: &Gram, row: Row<'_>) -> Result<Option<bool>, Memory>
    requires { IsBuilt g.now }
{
    let Some(atoms) = Atoms::of(alloc, g)? else {
        return Ok(None);
    };
    let doc = word_of(alloc, row.1)?;
    let table = table_of(alloc, row.2, row.3)?;
    Ok(Some(passes(alloc, g, &atoms, doc.as_slice(), &table)?))
}

/// The tables of all rows pass, or none of them does.
fn expect_all(rt: &impl Abort, alloc: Global, rows: &[Row<'_>], right: bool) -> Result<(), Fail> {
    let two = pair_of(alloc, SHEET)?;
    for row in rows {
        let found = row_passes(alloc, two.gram(Side::Text), *row);
        assert_eq!(rt; found, Ok(Some(right)), "at {}", row.0);
    }
    Ok(())
}

const RIGHT: &[Row<'static>] = &[
    (
        "a nest",
        "(ab) ->12",
        "3 0 1 3  2 1 0 4  0 4 0 9",
        "3 1 0 4 1 5 7 9",
    ),
    (
        "no spaces, and parts in another order",
        "ab->1",
        "3 4 0 2  0 0 0 5",
        "0 2 4 5 2",
    ),
    (
        "a node that is used twice over",
        "!ab",
        "4 0 1 3  4 0 1 3  1 1 0 3",
        "3 1 0",
    ),
];

const WRONG_NODES: &[Row<'static>] = &[
    ("an empty table", "(ab) ->12", "", ""),
    (
        "a child that begins one place later",
        "((ab) ->12",
        "3 0 2 4  2 1 0 5  0 4 0 10",
        "4 1 0 5 1 6 8 10",
    ),
    (
        "a child that begins one place earlier",
        "ab) ->12",
        "3 0 0 2  2 1 0 3  0 4 0 8",
        "2 1 0 3 1 4 6 8",
    ),
    (
        "a child of another nonterminal",
        "(ab) ->12",
        "4 0 1 3  2 1 0 4  0 4 0 9",
        "3 1 0 4 1 5 7 9",
    ),
    (
        "a child twice as long as its parts",
        "(abab) ->12",
        "3 0 1 5  2 1 0 6  0 4 0 11",
        "3 1 0 6 1 7 9 11",
    ),
    (
        "a child that comes later",
        "(ab) ->12",
        "2 1 0 4  3 0 1 3  0 4 0 9",
        "3 1 1 4 0 5 7 9",
    ),
    (
        "a child beyond the nodes",
        "(ab) ->12",
        "3 0 1 3  2 1 0 4  0 4 0 9",
        "3 1 7 4 1 5 7 9",
    ),
    (
        "a production that is not there",
        "(ab) ->12",
        "5 0 1 3  2 1 0 4  0 4 0 9",
        "3 1 0 4 1 5 7 9",
    ),
    (
        "the root of another nonterminal",
        "(ab)",
        "3 0 1 3  2 1 0 4",
        "3 1 0 4",
    ),
    (
        "a root that ends before the document",
        "(ab) ->12 ",
        "3 0 1 3  2 1 0 4  0 4 0 9",
        "3 1 0 4 1 5 7 9",
    ),
    (
        "a root that begins after the document's beginning",
        " ab->1",
        "3 0 1 3  0 1 1 6",
        "3 0 3 5 6",
    ),
];

const WRONG_PARTS: &[Row<'static>] = &[
    (
        "a letter in the digits",
        "ab->1x",
        "3 0 0 2  0 1 0 6",
        "2 0 2 4 6",
    ),
    ("no digit", "ab->", "3 0 0 2  0 1 0 4", "2 0 2 4 4"),
    (
        "a letter in the spaces",
        "ab x->1",
        "3 0 0 2  0 1 0 7",
        "2 0 4 6 7",
    ),
    (
        "a fixed word with another last symbol",
        "ac->1",
        "3 0 0 2  0 1 0 5",
        "2 0 2 4 5",
    ),
    (
        "a fixed word that is twice as long",
        "abab->1",
        "3 0 0 4  0 1 0 7",
        "4 0 4 6 7",
    ),
    (
        "a fixed word that is cut off",
        "a->1",
        "3 0 0 1  0 1 0 4",
        "1 0 1 3 4",
    ),
    (
        "a terminal's part beyond the end",
        "ab->1",
        "3 0 0 2  0 1 0 6",
        "2 0 2 4 6",
    ),
    (
        "a fixed word's part beyond the end",
        "(ab) ->12",
        "3 0 1 3  2 1 0 4  0 4 0 9",
        "3 1 0 40 1 5 7 9",
    ),
    (
        "a part before the one before it",
        "ab->1",
        "3 0 0 2  0 1 0 5",
        "2 0 2 1 5",
    ),
    ("too few parts", "ab->1", "3 0 0 2  0 1 0 5", "2 0 2 4"),
    (
        "parts that begin beyond all numbers",
        "ab->1",
        "3 4294967295 0 2  0 1 0 5",
        "2 0 2 4 5",
    ),
];

#[test]
fn tables_made_by_hand(rt: HostRuntime) -> Result<(), Fail> {
    expect_all(&rt, rt.alloc(), RIGHT, true)?;
    expect_all(&rt, rt.alloc(), WRONG_NODES, false)?;
    expect_all(&rt, rt.alloc(), WRONG_PARTS, false)
}
