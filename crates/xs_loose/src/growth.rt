ghost use Rattle.std.specs.Prelude.{◌∷◌, [], ◌<◌, OnOk};
ghost use Rattle.xs_auto.specs.{states};
ghost use Rattle.xs_loose.specs.Arcs.{read as read_arc, pass as pass_arc, call as call_arc};
ghost use Rattle.xs_loose.specs.Growth.{NetGrows};

use std::alloc::Global;
use xs_auto::Draft;
use xs_class::{Class, Memory, Sym};

/// Adds an edge by a class.
pub fn read(net: &mut Draft, from: u32, class: &Class, to: u32) -> Result<(), Memory>
    requires from { from < states net.old }
    requires to { to < states net.old }
    ensures { OnOk result (NetGrows (read_arc from class.now to ∷ []) net.old net.new) }
{
    net.edge(from, class, to)?;
    Ok(())
}

/// Adds an edge by one symbol.
pub fn read_symbol(
    net: &mut Draft,
    alloc: Global,
    from: u32,
    symbol: Sym,
    to: u32,
) -> Result<(), Memory>
    requires from { from < states net.old }
    requires to { to < states net.old }
    ensures { OnOk result (NetGrows (read_arc from ((symbol, symbol) ∷ []) to ∷ []) net.old net.new) }
{
    let number = symbol.number();
    let class = Class::from_ranges(alloc, &[(number, number)])?;
    let _sorted = class.ranges();
    read(net, from, &class, to)?;
    Ok(())
}

/// Adds an empty move.
pub fn pass(net: &mut Draft, from: u32, to: u32) -> Result<(), Memory>
    requires from { from < states net.old }
    requires to { to < states net.old }
    ensures { OnOk result (NetGrows (pass_arc from to ∷ []) net.old net.new) }
{
    net.pass(from, to)?;
    Ok(())
}

/// Adds a call of a group.
pub fn call(net: &mut Draft, from: u32, group: u32, to: u32) -> Result<(), Memory>
    requires from { from < states net.old }
    requires to { to < states net.old }
    ensures { OnOk result (NetGrows (call_arc from group to ∷ []) net.old net.new) }
{
    net.call(from, group, to)?;
    Ok(())
}
