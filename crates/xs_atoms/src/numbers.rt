ghost use Rattle.std.specs.Prelude.{IfOk};
ghost use Rattle.xs_atoms.specs.Classed.{StayAll, AreNumbersOf, AreTermNumbers, AreSkipNumbers};

use crate::distinct::Distinct;
use crate::fault::AtomsFault;
use std::alloc::Global;
use xs_class::Class;
use xs_gram::Gram;
use xs_regex::Numbers;

/// For each terminal and for each ignorable of a grammar the numbers of the classes at its positions.
#[derive(Drop)]
pub struct LeafNumbers {
    pub terms: Vec<Numbers>,
    pub skips: Vec<Numbers>,
}

/// The numbers of the classes of the grammar's terminals and ignorables.
pub fn leaf_numbers(
    alloc: Global,
    g: &Gram,
    distinct: &mut Distinct,
) -> Result<LeafNumbers, AtomsFault>
    ensures stay { IfOk result (λ _. StayAll distinct.old distinct.new) }
    ensures terms { IfOk result (λ leaves. AreTermNumbers g.now distinct.new leaves.terms.items) }
    ensures skips { IfOk result (λ leaves. AreSkipNumbers g.now distinct.new leaves.skips.items) }
{
    let mut terms = Vec::with_capacity(alloc, g.terms() as usize)?;
    'terms: for term in 0..g.terms() {
        let row = numbers_of(alloc, g.term(term).classes.as_slice(), distinct)?;
        terms.push(row)?;
    }
    let mut skips = Vec::with_capacity(alloc, g.skips() as usize)?;
    'skips: for skip in 0..g.skips() {
        let row = numbers_of(alloc, g.skip(skip).classes.as_slice(), distinct)?;
        skips.push(row)?;
    }
    Ok(LeafNumbers { terms, skips })
}

/// The numbers of these classes.
fn numbers_of(
    alloc: Global,
    classes: &[Class],
    distinct: &mut Distinct,
) -> Result<Numbers, AtomsFault>
    ensures stay { IfOk result (λ _. StayAll distinct.old distinct.new) }
    ensures numbers { IfOk result (λ row. AreNumbersOf distinct.new classes.now row) }
{
    let mut numbers = Vec::with_capacity(alloc, classes.len())?;
    'classes: for class in classes {
        let number = distinct.number(class)?;
        numbers.push(number)?;
    }
    Ok(Numbers::from_vec(numbers))
}
