//! Small nets.
ghost use Rattle.std.specs.Prelude.{◌≡◌, IsSome, IfOk};
ghost use Rattle.xs_auto.specs.{states};
ghost use Rattle.xs_test_tools.specs.Runs.{ReadsFrom};

use std::alloc::Global;
use xs_auto::{Draft, Net};
use xs_class::{Class, Memory};

/// A net of two states that accepts one or more symbols of a range, by an edge and an empty move
/// back.
pub fn run_of(alloc: Global, range: (u32, u32)) -> Result<Net, Memory>
    ensures start { IfOk result (λ n. IsSome n.start) }
    ensures two { IfOk result (λ n. states n ≡ 2) }
    ensures reads { IfOk result (ReadsFrom range.0) }
{
    let class = Class::from_ranges(alloc, &[range])?;
    let mut net = Draft::new(alloc)?;
    let first = net.state()?;
    let last = net.state()?;
    net.edge(first, &class, last)?;
    net.pass(last, first)?;
    net.set_start(first);
    net.set_final(last)?;
    let made = net.finish()?;
    Ok(made)
}
