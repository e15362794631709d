ghost use Rattle.std.specs.Prelude.{◌≡◌, ◌++◌, ◌<◌, length, IfOk};
ghost use Rattle.xs_gram.specs.{spread};
ghost use Rattle.xs_coarse.specs.Labels.{lefts_of, lefts_before};

use std::alloc::Global;
use xs_class::Memory;
use xs_gram::Gram;
use xs_loose::Fenced;

/// The left fence symbols of a grammar's groups, by the numbers of the groups.
pub fn lefts(alloc: Global, g: &Gram) -> Result<Vec<u32>, Memory>
    ensures { IfOk result (λ lefts. lefts.items ≡ lefts_before g.now (length g.now.rules)) }
{
    let mut lefts = Vec::new(alloc);
    'rules: for rule in 0..g.rules() {
        push_lefts(&mut lefts, g, rule)?;
    }
    Ok(lefts)
}

/// Appends the left fence symbols of a rule's groups.
fn push_lefts(lefts: &mut Vec<u32>, g: &Gram, rule: u32) -> Result<(), Memory>
    requires { rule < length g.now.rules }
    ensures { IfOk result (λ _. lefts.new.items ≡ lefts.old.items ++ lefts_of g.now.fences (spread g.now rule)) }
{
    'items: for place in 0..g.spread(rule).len() as u32 {
        if let Some(fenced) = Fenced::at(g, rule, place) {
            lefts.push(fenced.left.number())?;
        }
    }
    Ok(())
}
