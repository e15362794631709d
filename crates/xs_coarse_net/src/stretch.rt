ghost use Rattle.std.specs.Prelude.{◌≡◌, ℕ, ◌+◌, ◌<◌, length, IfOk};
ghost use Rattle.xs_loose.specs.{IsPart};
ghost use Rattle.xs_coarse_net.specs.Covers.{IsCoverOf};
ghost use Rattle.xs_coarse_net.specs.Grounds.{IsGround};
ghost use Rattle.xs_coarse_net.specs.Joining.{AreFragments};

use crate::ground::Ground;
use crate::pieces::add_piece;
use crate::room::{Room, room_for};
use crate::rule::number_after;
use crate::{Cover, Outer};
use xs_coarse::{Coarse, Stop};
use xs_loose::Part;

/// The cover of a level stretch, in time linear in its rule's places and the cover. Fragments that it
/// needs are kept.
pub(crate) fn cover_part(
    kept: &mut Vec<Option<Coarse>>,
    ground: &Ground<'_>,
    part: &Part,
) -> Result<Cover, Stop>
    requires ground { IsGround ground.now }
    requires part { IsPart ground.now.site.g.now part.now }
    requires kept { AreFragments ground.now.site.g.now ground.now.site.labels.now kept.old.items }
    ensures kept { AreFragments ground.now.site.g.now ground.now.site.labels.now kept.new.items }
    ensures cover { IfOk result (IsCoverOf ground.now.site.g.now ground.now.site.labels.now part.now) }
{
    let room = room_for(kept, ground, *part)?;
    let cover = cover_of(kept.as_slice(), ground, *part, room)?;
    Ok(cover)
}

/// The same, where the fragments that it needs are kept, with room for it asked for at once.
fn cover_of(
    kept: &[Option<Coarse>],
    ground: &Ground<'_>,
    part: Part,
    room: Room,
) -> Result<Cover, Stop>
    requires ground { IsGround ground.now }
    requires part { IsPart ground.now.site.g.now part }
    requires kept { AreFragments ground.now.site.g.now ground.now.site.labels.now kept.now }
    ensures { IfOk result (IsCoverOf ground.now.site.g.now ground.now.site.labels.now part) }
{
    let mut net = Coarse::with_capacity(ground.alloc, room.states, room.arcs)?;
    let mut places = Vec::with_capacity(ground.alloc, room.places)?;
    let mut number = *ground.site.groups.at(part.rule as usize);
    let mut next = part.start;
    'items: for place in 0..part.end {
        let here = number;
        number = number_after(&ground.site, part.rule, place, here)?;
        if place < next {
            continue;
        }
        places.push(Outer {
            place,
            state: net.len() - 1,
        })?;
        next = add_piece(&mut net, kept, &ground.site, part.rule, place, here)?;
    }
    let last = net.len() - 1;
    places.push(Outer {
        place: part.end,
        state: last,
    })?;
    Ok(Cover { net, places, last })
}
