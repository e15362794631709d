ghost use Rattle.std.specs.Prelude.{◌≡◌, ◌<◌, true, length, IfOk};
ghost use Rattle.xs_coarse.specs.{MayCall};
ghost use Rattle.xs_coarse_net.specs.{nest_of, cover_view};
ghost use Rattle.xs_meet.specs.{IsSettled, AreApart};
ghost use Rattle.xs_screen.specs.Parting.{Parts, AreBothSettled, IsRowSettled, StaySettled, AreTheTwo, IsOfRow};

use xs_class::Memory;
use xs_coarse::{Labels, Search};
use xs_coarse_net::{Content, Cover};

/// Sees which groups read no common word, though they have one fence, and notes it in the labels.
/// False where the labels do not fit the groups.
pub fn part_groups(
    labels: &mut Labels,
    search: &mut Search,
    contents: &[Content],
) -> Result<bool, Memory>
    requires { length contents.now ≡ labels.old.groups }
    ensures parts { Parts labels.old labels.new }
    ensures settled { IfOk result (λ b. b ≡ true → IsSettled (nest_of labels.new contents.now) (MayCall labels.new)) }
{
    let Ok(count) = u32::try_from(contents.len()) else {
        return Ok(false);
    };
    'firsts: for first in 0..count {
        if !part_row(labels, search, contents, first, count)? {
            return Ok(false);
        }
    }
    Ok(true)
}

/// The same for a group and those after it.
fn part_row(
    labels: &mut Labels,
    search: &mut Search,
    contents: &[Content],
    first: u32,
    count: u32,
) -> Result<bool, Memory>
    requires numbered { length contents.now ≡ labels.old.groups }
    requires first { first < count }
    requires count { count ≡ length contents.now }
    ensures parts { Parts labels.old labels.new }
    ensures stay { StaySettled contents.now labels.old labels.new (IsOfRow first) }
    ensures settled { IfOk result (λ b. b ≡ true → IsRowSettled contents.now labels.new first (length contents.now)) }
{
    let own = labels.group(first);
    if !labels.meet(own, own) {
        return Ok(false);
    }
    'seconds: for second in first + 1..count {
        if !part_pair(labels, search, contents, first, second)? {
            return Ok(false);
        }
    }
    Ok(true)
}

/// The same for two groups.
fn part_pair(
    labels: &mut Labels,
    search: &mut Search,
    contents: &[Content],
    first: u32,
    second: u32,
) -> Result<bool, Memory>
    requires numbered { length contents.now ≡ labels.old.groups }
    requires order { first < second }
    requires second { second < length contents.now }
    ensures parts { Parts labels.old labels.new }
    ensures stay { StaySettled contents.now labels.old labels.new (AreTheTwo first second) }
    ensures settled { IfOk result (λ b. b ≡ true → AreBothSettled contents.now labels.new first second) }
{
    let one = &contents[first as usize];
    let other = &contents[second as usize];
    if one.left.number() != other.left.number() {
        return Ok(true);
    }
    if are_both_apart(labels, search, &one.cover, &other.cover)? {
        labels.part(first, second);
        return Ok(true);
    }
    let a = labels.group(first);
    let b = labels.group(second);
    Ok(labels.meet(a, b) && labels.meet(b, a))
}

/// Whether two covers are seen to accept no common word, in either order.
fn are_both_apart(
    labels: &Labels,
    search: &mut Search,
    one: &Cover,
    other: &Cover,
) -> Result<bool, Memory>
    ensures one { IfOk result (λ b. b ≡ true → AreApart (MayCall labels.now) (cover_view labels.now one.now) (cover_view labels.now other.now)) }
    ensures other { IfOk result (λ b. b ≡ true → AreApart (MayCall labels.now) (cover_view labels.now other.now) (cover_view labels.now one.now)) }
{
    if !are_apart(labels, search, one, other)? {
        return Ok(false);
    }
    are_apart(labels, search, other, one)
}

/// Whether two covers are seen to accept no common word.
pub fn are_apart(
    labels: &Labels,
    search: &mut Search,
    one: &Cover,
    other: &Cover,
) -> Result<bool, Memory>
    ensures { IfOk result (λ b. b ≡ true → AreApart (MayCall labels.now) (cover_view labels.now one.now) (cover_view labels.now other.now)) }
{
    if one.net.len() == 0 || other.net.len() == 0 {
        return Ok(false);
    }
    search.apart(labels, &one.net, 0, one.last, &other.net, 0, other.last)
}
