// The lines of groups that are said to share a word.
ghost use Rattle.std.specs.Prelude.{◌≡◌, suc, ◌<◌, ◌≤◌, ◌^◌, length};
ghost use Rattle.xs_cert.specs.Places.{IsPlace};
ghost use Rattle.xs_cert.specs.Shares.{AreSharesRead};

use crate::heads::have_one_fence;
use crate::place::Place;
use crate::titles::pair_title;
use xs_auto::Nest;
use xs_closed::PairSet;

/// Reads the lines of groups that are said to share a word, and marks those in both orders: the
/// place after them.
pub fn read_shares(bytes: &[u8], place: Place, nest: &Nest, related: &mut PairSet) -> Place
    requires place { IsPlace bytes.now place }
    requires high { length related.old.rows ≡ length nest.now }
    requires wide { related.old.wide ≡ length nest.now }
    ensures { AreSharesRead nest.now bytes.now place 0 0 result (length nest.now) (length nest.now) related.old related.new }
{
    let mut at = place;
    'groups: for first in 0..nest.len() {
        at = read_row(bytes, at, nest, first, related);
    }
    at
}

/// Reads the lines of a group with those from it on.
fn read_row(bytes: &[u8], place: Place, nest: &Nest, first: u32, related: &mut PairSet) -> Place
    requires place { IsPlace bytes.now place }
    requires first { first < length nest.now }
    requires few { length nest.now < 2 ^ 32 }
    requires high { length related.old.rows ≡ length nest.now }
    requires wide { related.old.wide ≡ length nest.now }
    ensures { AreSharesRead nest.now bytes.now place first first result (suc first) (suc first) related.old related.new }
{
    let mut at = place;
    'partners: for second in first..nest.len() {
        at = read_pair(bytes, at, nest, first, second, related);
    }
    at
}

/// Reads the line of two groups, if they have one fence and it stands there.
fn read_pair(
    bytes: &[u8],
    place: Place,
    nest: &Nest,
    first: u32,
    second: u32,
    related: &mut PairSet,
) -> Place
    requires place { IsPlace bytes.now place }
    requires order { first ≤ second }
    requires second { second < length nest.now }
    requires few { length nest.now < 2 ^ 32 }
    requires high { length related.old.rows ≡ length nest.now }
    requires wide { related.old.wide ≡ length nest.now }
    ensures { AreSharesRead nest.now bytes.now place first second result first (suc second) related.old related.new }
{
    if !have_one_fence(nest, first, second) {
        return place;
    }
    let Some(next) = pair_title(bytes, place, b"shared", first, second) else {
        return place;
    };
    related.insert(first, second);
    related.insert(second, first);
    next
}
