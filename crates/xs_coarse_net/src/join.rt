ghost use Rattle.std.specs.Prelude.{OnOk};
ghost use Rattle.xs_coarse.specs.{one_arc};
ghost use Rattle.xs_coarse_net.specs.Joining.{Joins};
ghost use Rattle.xs_coarse_net.specs.Placing.{Placed};

use crate::draft::MOST;
use xs_coarse::{Coarse, Stop};

/// Goes on with another net from the last state, unless the net would be too large.
pub(crate) fn join_net(net: &mut Coarse, other: &Coarse) -> Result<(), Stop>
    ensures joins { OnOk result (Joins net.old other.now net.new) }
    ensures placed { OnOk result (Placed net.old net.new (λ x. x)) }
{
    if net.len() > MOST || other.len() > MOST {
        return Err(Stop::Unfit);
    }
    net.join(other)?;
    let _states = net.len();
    Ok(())
}

/// Goes on with an arc from the last state to a new one, unless the net would be too large.
pub(crate) fn step_net(net: &mut Coarse, label: u32) -> Result<(), Stop>
    ensures joins { OnOk result (Joins net.old (one_arc label) net.new) }
    ensures placed { OnOk result (Placed net.old net.new (λ x. x)) }
{
    if net.len() > MOST {
        return Err(Stop::Unfit);
    }
    net.step(label)?;
    let _states = net.len();
    Ok(())
}
