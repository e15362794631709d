ghost use Rattle.std.specs.Prelude.{◌≡◌, ◌<◌, length};
ghost use Rattle.xs_gram.specs.{spread};
ghost use Rattle.xs_loose.specs.{IsPart};
ghost use Rattle.xs_coarse_net.specs.Grounds.{IsGround};
ghost use Rattle.xs_coarse_net.specs.Joining.{AreFragments};

use crate::draft::MOST;
use crate::ground::Ground;
use crate::pieces::keep_fragment;
use crate::site::Site;
use xs_coarse::{Coarse, Stop};
use xs_gram::GItem;
use xs_loose::Part;

/// How many states, arcs and outer places a cover takes, as far as they can be counted. What is counted
/// is only asked for at once: a cover may take more.
#[derive(Clone, Copy)]
pub(crate) struct Room {
    pub states: usize,
    pub arcs: usize,
    pub places: usize,
}

impl Room {
    /// The room of a net of one state, which is shown while another joins it.
    fn one() -> Room {
        Room {
            states: 2,
            arcs: 0,
            places: 1,
        }
    }

    /// Room for one more piece of that many states and arcs.
    fn with(self, states: usize, arcs: usize) -> Room {
        let most = MOST as usize;
        Room {
            states: self.states.saturating_add(states).min(most),
            arcs: self.arcs.saturating_add(arcs).min(most),
            places: self.places.saturating_add(1),
        }
    }

    /// Room for one more net that is joined.
    fn with_net(self, net: &Coarse) -> Room {
        self.with(net.len() as usize - 1, net.arcs().len())
    }
}

/// The room for the cover of a stretch. Makes the fragments that the cover needs, if they are not kept
/// yet.
pub(crate) fn room_for(
    kept: &mut Vec<Option<Coarse>>,
    ground: &Ground<'_>,
    part: Part,
) -> Result<Room, Stop>
    requires ground { IsGround ground.now }
    requires part { IsPart ground.now.site.g.now part }
    requires kept { AreFragments ground.now.site.g.now ground.now.site.labels.now kept.old.items }
    ensures { AreFragments ground.now.site.g.now ground.now.site.labels.now kept.new.items }
{
    let mut room = Room::one();
    let mut next = part.start;
    'items: for place in part.start..part.end {
        if place < next {
            continue;
        }
        room = room_with(room, kept, ground, part.rule, place)?;
        next = place_after(&ground.site, part.rule, place);
    }
    Ok(room)
}

/// The place after the outer item or the group at a place of a rule.
fn place_after(site: &Site<'_>, rule: u32, place: u32) -> u32
    requires rule { rule < length site.now.g.now.rules }
    requires place { place < length (spread site.now.g.now rule) }
{
    match site.g.partner(rule, place) {
        Some(partner) => partner.saturating_add(1),
        None => place.saturating_add(1),
    }
}

/// Room for the outer item or the group at a place of a rule too.
fn room_with(
    room: Room,
    kept: &mut Vec<Option<Coarse>>,
    ground: &Ground<'_>,
    rule: u32,
    place: u32,
) -> Result<Room, Stop>
    requires ground { IsGround ground.now }
    requires rule { rule < length ground.now.site.g.now.rules }
    requires place { place < length (spread ground.now.site.g.now rule) }
    requires kept { AreFragments ground.now.site.g.now ground.now.site.labels.now kept.old.items }
    ensures { AreFragments ground.now.site.g.now ground.now.site.labels.now kept.new.items }
{
    match &ground.site.g.spread(rule)[place as usize] {
        GItem::Fixed(word) => Ok(room.with(word.len(), word.len())),
        GItem::Term { term, .. } => Ok(room_with_leaf(
            room,
            ground.site.leaves.terms.get(*term as usize),
        )),
        GItem::Skip { skip } => Ok(room_with_leaf(
            room,
            ground.site.leaves.skips.get(*skip as usize),
        )),
        GItem::Non { non, .. } => {
            keep_fragment(kept, ground, *non)?;
            Ok(room_with_kept(room, &kept[*non as usize]))
        }
    }
}

/// Room for a terminal or an ignorable too, if there is a net of it.
fn room_with_leaf(room: Room, leaf: Option<&Coarse>) -> Room {
    match leaf {
        Some(net) => room.with_net(net),
        None => room,
    }
}

/// Room for a fragment too, if it is kept.
fn room_with_kept(room: Room, kept: &Option<Coarse>) -> Room {
    match kept {
        Some(net) => room.with_net(net),
        None => room,
    }
}
