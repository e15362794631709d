ghost use Rattle.std.specs.Prelude.{◌≡◌, ◌<◌, length};
ghost use Rattle.xs_forest.specs.{IsEarlier, AreBelow};
ghost use Rattle.xs_forest_laws.specs.{key_of, alts_of, end_of};
ghost use Rattle.xs_listing.specs.Marks.{IsFirstAlt};
ghost use Rattle.xs_listing.specs.Making.{IsFirstAlternative};

use xs_forest::{Alt, Forest};
use xs_forest_laws::SpanKey;

/// The label of a row.
pub(crate) fn label_at(forest: &Forest<'_, SpanKey>, row: u64) -> SpanKey
    requires { row < length forest.now }
    ensures { result ≡ key_of forest.now row }
{
    forest.row(row).label
}

/// The alternatives of a row.
pub(crate) fn alts_at<'b>(forest: &Forest<'b, SpanKey>, row: u64) -> &'b [Alt]
    requires { row < length forest.now }
    ensures { result.now ≡ alts_of forest.now row }
{
    forest.row(row).alts
}

/// The place of the document where a left child ends, and `start` where there is none.
pub(crate) fn end_of(forest: &Forest<'_, SpanKey>, start: u32, left: Option<u64>) -> u32
    requires { IsEarlier left (length forest.now) }
    ensures { result ≡ end_of forest.now start left }
{
    match left {
        None => start,
        Some(row) => label_at(forest, row).end,
    }
}

/// How the first alternative of a row goes on: its children, and the stretch of the row's last
/// item.
#[derive(Clone, Copy)]
pub(crate) struct FirstAlternative {
    pub left: Option<u64>,
    pub right: Option<u64>,
    pub start: u32,
    pub end: u32,
}

/// The first alternative of a row.
pub(crate) fn first_alt(forest: &Forest<'_, SpanKey>, row: u64) -> Alt
    requires there { row < length forest.now }
    requires some { 0 < length (alts_of forest.now row) }
    ensures { IsFirstAlt forest.now row result }
{
    alts_at(forest, row)[0]
}

/// The step of a row.
pub(crate) fn first_step(forest: &Forest<'_, SpanKey>, row: u64) -> FirstAlternative
    requires there { row < length forest.now }
    requires some { 0 < length (alts_of forest.now row) }
    requires below { AreBelow forest.now }
    ensures { IsFirstAlternative forest.now row result }
{
    let label = label_at(forest, row);
    let alt = first_alt(forest, row);
    let start = end_of(forest, label.start, alt.left);
    FirstAlternative {
        left: alt.left,
        right: alt.right,
        start,
        end: label.end,
    }
}
