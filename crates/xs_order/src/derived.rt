ghost use Rattle.std.specs.Prelude.{IfOk};
ghost use Rattle.xs_clauses.specs.{AreFlags};
ghost use Rattle.xs_gram.specs.{IsBuilt};
ghost use Rattle.xs_order.specs.Order.{AreNullable, AreProductive};
ghost use Rattle.xs_order.specs.Wanted.{IsDerived, IsWanted};

use crate::rules::made_nons;
use crate::wanted::{Wanted, leaves_with};
use std::alloc::Global;
use xs_class::Memory;
use xs_clauses::Flags;
use xs_gram::Gram;

/// Which nonterminals derive the empty word: a flag for each, by its number.
///
/// Takes time and memory linear in the items of the rules.
pub fn nullable(alloc: Global, g: &Gram) -> Result<Flags, Memory>
    requires { IsBuilt g.now }
    ensures { IfOk result (AreNullable g.now) }
{
    let flags = derived_with(alloc, g, Wanted::EmptyWord)?;
    Ok(flags)
}

/// Which nonterminals derive a word: a flag for each, by its number.
///
/// Takes time and memory linear in the items of the rules and in the steps of the automata.
pub fn productive(alloc: Global, g: &Gram) -> Result<Flags, Memory>
    requires { IsBuilt g.now }
    ensures { IfOk result (AreProductive g.now) }
{
    let flags = derived_with(alloc, g, Wanted::AnyWord)?;
    Ok(flags)
}

/// Which nonterminals have derivations whose leaves have wanted words alone.
fn derived_with(alloc: Global, g: &Gram, wanted: Wanted) -> Result<Flags, Memory>
    requires { IsBuilt g.now }
    ensures { IfOk result (AreFlags (IsDerived g.now (IsWanted wanted)) g.now.nons) }
{
    let leaves = leaves_with(alloc, g, wanted)?;
    let flags = made_nons(alloc, g, &leaves)?;
    Ok(flags)
}
