ghost use Rattle.std.specs.Prelude.{◌≡◌, ◌≢◌, ◌<◌, ℕ, false, length, map, OnOk};
ghost use Rattle.xs_closed.specs.{marked};
ghost use Rattle.xs_meet.specs.{has_at};
ghost use Rattle.xs_cert_laws.specs.{share_line};
ghost use Rattle.xs_cert.specs.Writing.{Adds, Relates, shares_of, shares_in};

use xs_auto::Nest;
use xs_cert_lines::write_pair;
use xs_class::{Bytes, Memory};
use xs_closed::PairSet;
use xs_meet::Shared;

/// Marks which two groups share a word.
pub fn relate(nest: &Nest, shared: &Shared, related: &mut PairSet) -> Result<(), Memory>
    requires { shared.now.groups ≡ length nest.now }
    ensures { OnOk result (Relates shared.now related.new) }
{
    let count = nest.len();
    related.reset(count, count)?;
    'firsts: for first in 0..count {
        relate_row(shared, first, count, related);
    }
    Ok(())
}

/// Marks with which groups one shares a word, where none is marked yet.
fn relate_row(shared: &Shared, first: u32, count: u32, related: &mut PairSet)
    requires groups { shared.now.groups ≡ count }
    requires first { first < count }
    requires high { length related.old.rows ≡ count }
    requires wide { related.old.wide ≡ count }
    requires none { (k : ℕ) → marked related.old first k ≡ false }
    ensures high { length related.new.rows ≡ count }
    ensures wide { related.new.wide ≡ count }
    ensures row { (k : ℕ) → marked related.new first k ≡ has_at shared.now first k }
    ensures others { (h k : ℕ) → h ≢ first → marked related.new h k ≡ marked related.old h k }
{
    'seconds: for second in 0..count {
        if shared.has(first, second) {
            related.insert(first, second);
        }
    }
}

/// Appends a line for each two groups that are marked, the smaller one first.
pub fn write_shares(out: &mut Bytes, related: &PairSet, count: u32) -> Result<(), Memory>
    ensures { OnOk result (Adds out.old out.new (map share_line (shares_in count (marked related.now)))) }
{
    'firsts: for first in 0..count {
        write_share_row(out, related, count, first)?;
    }
    Ok(())
}

/// Appends a line for a group and each from it on with which it is marked.
fn write_share_row(out: &mut Bytes, related: &PairSet, count: u32, first: u32) -> Result<(), Memory>
    requires { first < count }
    ensures { OnOk result (Adds out.old out.new (map share_line (shares_of count (marked related.now) first))) }
{
    'seconds: for second in first..count {
        if related.has(first, second) {
            write_pair(out, b"shared", first, second)?;
        }
    }
    Ok(())
}
