ghost use Rattle.std.specs.Prelude.{◌<◌, length, IfOk, OnOk};
ghost use Rattle.std.specs.List.{All};
ghost use Rattle.xs_clauses.specs.Made.{AreBelow};
ghost use Rattle.xs_clauses.specs.Search.{AreBlank, AreUses, IsNoted};

use crate::Clause;
use std::alloc::Global;
use xs_class::{Listed, Memory};

/// For each number the places of the clauses that have it as a premise.
pub fn uses_of(alloc: Global, count: u32, clauses: &[Clause]) -> Result<Vec<Listed<usize>>, Memory>
    requires { AreBelow count clauses.now }
    ensures { IfOk result (λ uses. AreUses count clauses.now uses.items) }
{
    let mut uses = blank(alloc, count)?;
    'clauses: for place in 0..clauses.len() {
        note(&mut uses, clauses[place].premises.as_slice(), place)?;
    }
    Ok(uses)
}

/// That many empty rows.
fn blank(alloc: Global, count: u32) -> Result<Vec<Listed<usize>>, Memory>
    ensures { IfOk result (λ uses. AreBlank count uses.items) }
{
    let mut uses = Vec::with_capacity(alloc, count as usize)?;
    'rows: for _ in 0..count {
        uses.push(Listed::new(alloc))?;
    }
    Ok(uses)
}

/// Adds the place of a clause to the row of each of its premises.
fn note(uses: &mut Vec<Listed<usize>>, premises: &[u32], place: usize) -> Result<(), Memory>
    requires { All (λ n. n < length uses.old.items) premises.now }
    ensures { OnOk result (IsNoted premises.now place uses.old.items uses.new.items) }
{
    'premises: for number in premises {
        let row = &mut uses[*number as usize];
        row.push(place)?;
    }
    Ok(())
}
