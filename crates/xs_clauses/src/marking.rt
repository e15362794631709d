ghost use Rattle.std.specs.Prelude.{IfOk};
ghost use Rattle.xs_clauses.specs.Made.{AreBelow, AreFlags, IsMade};

use crate::search::Search;
use crate::uses::uses_of;
use crate::{Clause, Flags};
use std::alloc::Global;
use xs_class::Memory;

/// What the clauses make: a flag for each number below `count`, set exactly where the number is
/// made.
///
/// Takes time and memory linear in `count` and in the premises of all clauses.
pub fn made(alloc: Global, count: u32, clauses: &[Clause]) -> Result<Flags, Memory>
    requires { AreBelow count clauses.now }
    ensures { IfOk result (AreFlags (IsMade clauses.now) count) }
{
    let uses = uses_of(alloc, count, clauses)?;
    let mut search = Search::new(alloc, count, clauses)?;
    search.run(clauses, &uses)?;
    Ok(Flags::from_vec(search.flags))
}
