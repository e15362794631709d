ghost use Rattle.std.specs.Prelude.{◌≡◌, ◌<◌, suc, length, filter, OnOk};
ghost use Rattle.xs_closed.specs.{marked};
ghost use Rattle.xs_cert_laws.specs.{between, one_fence};
ghost use Rattle.xs_cert.specs.Heads.{is_open as is_open_by, is_of_one};

use xs_auto::Nest;
use xs_class::Memory;
use xs_closed::PairSet;
use xs_gram::Gram;

/// The groups with which this one has a block, from it on: those of its fence to which it is not
/// related.
pub fn group_partners(
    nest: &Nest,
    related: &PairSet,
    group: u32,
    partners: &mut Vec<u32>,
) -> Result<(), Memory>
    requires { group < length nest.now }
    ensures { OnOk result (partners.new.items ≡ filter (is_open_by nest.now (marked related.now) group) (between group (length nest.now))) }
{
    partners.clear();
    'others: for other in group..nest.len() {
        if is_open(nest, related, group, other) {
            partners.push(other)?;
        }
    }
    Ok(())
}

/// Whether two groups have one fence and are not related.
fn is_open(nest: &Nest, related: &PairSet, group: u32, other: u32) -> bool
    requires group { group < length nest.now }
    requires other { other < length nest.now }
    ensures { result ≡ is_open_by nest.now (marked related.now) group other }
{
    have_one_fence(nest, group, other) && !related.has(group, other)
}

/// Whether two groups have one fence.
pub fn have_one_fence(nest: &Nest, group: u32, other: u32) -> bool
    requires group { group < length nest.now }
    requires other { other < length nest.now }
    ensures { result ≡ one_fence nest.now group other }
{
    let (left, right) = nest.fence(group);
    let fence = nest.fence(other);
    left == fence.0 && right == fence.1
}

/// The rules with which this one has a block: those of its nonterminal after it.
pub fn rule_partners(g: &Gram, rule: u32, partners: &mut Vec<u32>) -> Result<(), Memory>
    requires { rule < length g.now.rules }
    ensures { OnOk result (partners.new.items ≡ filter (is_of_one g.now rule) (between (suc rule) (length g.now.rules))) }
{
    partners.clear();
    let count = g.rules();
    'others: for other in rule + 1..count {
        if are_of_one(g, rule, other) {
            partners.push(other)?;
        }
    }
    Ok(())
}

/// Whether two rules are of one nonterminal.
fn are_of_one(g: &Gram, rule: u32, other: u32) -> bool
    requires rule { rule < length g.now.rules }
    requires other { other < length g.now.rules }
    ensures { result ≡ is_of_one g.now rule other }
{
    g.non_of(rule) == g.non_of(other)
}
