ghost use Rattle.std.specs.Prelude.{◌≡◌, ◌<◌, suc, length, IfOk};
ghost use Rattle.xs_chart.specs.{before_last};
ghost use Rattle.xs_earley.specs.Adding.{Adds, Calls, Completes, AreCalled};
ghost use Rattle.xs_earley.specs.Facts.{AreFacts};
ghost use Rattle.xs_earley.specs.Growing.{IsExact};

use crate::called::Called;
use crate::facts::Facts;
use xs_chart::Chart;
use xs_class::Memory;
use xs_gram::Gram;

/// Begins the rules of a nonterminal in the last set, unless it is marked as one whose rules are begun
/// there, and marks it. What is added otherwise is never the beginning of a rule: so none of these is
/// looked for.
#[inline(always)]
pub fn predict(
    chart: &mut Chart,
    called: &mut Called,
    g: &Gram,
    facts: &Facts,
    at: u32,
    non: u32,
) -> Result<(), Memory>
    requires facts { AreFacts g.now facts.now }
    requires non { non < g.now.nons }
    requires marks { length called.old ≡ g.now.nons }
    requires called { AreCalled g.now at chart.old.sets called.old }
    requires last { length chart.old.sets ≡ suc at }
    ensures adds { IfOk result (λ _. Adds g.now at (Calls g.now at non) chart.old.sets chart.new.sets) }
    ensures marks { length called.new ≡ length called.old }
    ensures called { IfOk result (λ _. AreCalled g.now at chart.new.sets called.new) }
    ensures waits { chart.new.waits ≡ chart.old.waits }
    ensures before { before_last chart.new ≡ before_last chart.old }
{
    if called.has(non) {
        return Ok(());
    }
    chart.append_all(facts.starts(g, non), at)?;
    called.mark(non);
    Ok(())
}

/// At the end of a rule of a nonterminal that began in an earlier set, adds to the last set what is
/// after the nonterminal for each item that waits for it there.
#[inline(always)]
pub fn complete(
    chart: &mut Chart,
    g: &Gram,
    facts: &Facts,
    at: u32,
    from: u32,
    non: u32,
) -> Result<(), Memory>
    requires facts { AreFacts g.now facts.now }
    requires last { length chart.old.sets ≡ suc at }
    requires waiting { from < at → IsExact g.now chart.old from non }
    ensures adds { IfOk result (λ _. Adds g.now at (λ c i. (from < at) × Completes g.now chart.old.sets from non c i) chart.old.sets chart.new.sets) }
    ensures waits { chart.new.waits ≡ chart.old.waits }
    ensures before { before_last chart.new ≡ before_last chart.old }
{
    if from >= at {
        return Ok(());
    }
    chart.advance(from, non, &facts.nexts)?;
    Ok(())
}
