ghost use Rattle.std.specs.Prelude.{◌≡◌, ◌<◌, Some, length, slice_get, IfOk, OnOk};
ghost use Rattle.xs_grow.specs.Candidates.{AreCallsOf, IsCallPushed};

use crate::call::Call;
use crate::marks::Marks;
use std::alloc::Global;
use xs_class::Memory;
use xs_forest_laws::{SpanKey, What};

/// Adds the call of the nonterminal's stretch that a mark is of, with the stretch's end, unless an
/// earlier mark is of the same stretch.
fn push_call(
    wholes: &Marks<SpanKey>,
    t: usize,
    key: SpanKey,
    number: u32,
    calls: &mut Marks<Call>,
) -> Result<(), Memory>
    requires { slice_get wholes.now t ≡ Some (key, number) }
    ensures { OnOk result (IsCallPushed wholes.now t key calls.old calls.new) }
{
    if !wholes.is_first(key, t) {
        return Ok(());
    }
    match key.what {
        What::Whole(non) => {
            let call = Call {
                non,
                start: key.start,
            };
            calls.push(call, key.end)?;
            Ok(())
        }
        What::Front { .. } => Ok(()),
    }
}

/// These marks, in which those of a label are found.
pub(crate) fn marks_of(alloc: Global, list: &[(SpanKey, u32)]) -> Result<Marks<SpanKey>, Memory>
    ensures { IfOk result (λ marks. marks ≡ list.now) }
{
    let mut marks = Marks::new(alloc);
    'list: for mark in list {
        marks.push(mark.0, mark.1)?;
    }
    Ok(marks)
}

/// The places where each nonterminal ends that begins at a place, each once.
pub(crate) fn calls_of(alloc: Global, wholes: &Marks<SpanKey>) -> Result<Marks<Call>, Memory>
    ensures { IfOk result (AreCallsOf wholes.now) }
{
    let mut calls = Marks::new(alloc);
    'marks: for t in 0..wholes.len() {
        let (key, number) = wholes.at(t);
        push_call(wholes, t, key, number, &mut calls)?;
    }
    Ok(calls)
}
