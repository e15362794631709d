ghost use Rattle.std.specs.Prelude.{◌<◌, length, IfOk, IfErr};
ghost use Rattle.xs_chart.specs.{set_limit};
ghost use Rattle.xs_gram.specs.{InLang, IsSound};
ghost use Rattle.xs_chart_laws.specs.{IsChartOf, HasWaiters};
ghost use Rattle.xs_earley.specs.Seen.{IsFault};

use crate::{Run, SeeFault};
use std::alloc::Global;
use xs_chart::Chart;
use xs_class::Word;
use xs_gram::Gram;

/// The chart of a document of the grammar's language: a set for each number of leading symbols,
/// from none up to all, which has exactly the items that stand there, each once. An item's state is
/// the number of its place in the grammar. A nonterminal's waiting list in a set has exactly the
/// numbers of the set's items that stand before the nonterminal, each once.
///
/// Fails with `Foreign` exactly where the document is not of the language; then `viable` is the
/// greatest number of its leading symbols that begin some word of the language. The time is linear
/// in the items of the chart and what they lead to. The sets are those of J. Earley, An efficient
/// context-free parsing algorithm, with nonterminals that derive the empty word passed over when
/// they are predicted, as in J. Aycock and R. N. Horspool, Practical Earley parsing.
pub fn recognise(alloc: Global, g: &Gram, doc: &Word) -> Result<Chart, SeeFault>
    requires sound { IsSound g.now }
    requires few { length doc.now < set_limit }
    ensures language { IfOk result (λ _. InLang g.now doc.now) }
    ensures chart { IfOk result (λ chart. IsChartOf g.now doc.now chart.sets) }
    ensures waiters { IfOk result (λ chart. HasWaiters g.now chart) }
    ensures fault { IfErr result (λ e. IsFault g.now doc.now e) }
{
    let mut run = Run::begin(alloc, g)?;
    'symbols: for symbol in doc.as_slice() {
        if !run.step(g, *symbol)? {
            let viable = run.len() as u64;
            return Err(SeeFault::Foreign { viable });
        }
    }
    if run.whole() {
        return Ok(run.into_chart());
    }
    let viable = doc.len() as u64;
    Err(SeeFault::Foreign { viable })
}
