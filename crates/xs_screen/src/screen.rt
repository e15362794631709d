ghost use Rattle.std.specs.Prelude.{length, IfOk, IfSome};
ghost use Rattle.xs_gram.specs.{IsBuilt};
ghost use Rattle.xs_loose.specs.{AreNumbersBefore};
ghost use Rattle.xs_screen.specs.Screens.{IsScreen};

use crate::groups::part_groups;
use crate::kept::Kept;
use std::alloc::Global;
use xs_class::Memory;
use xs_coarse::{Labels, Search};
use xs_coarse_net::Covers;
use xs_gram::Gram;
use xs_regex::Numbers;

/// The coarse nets of a grammar, with the search over them, and what is kept of each rule: a cover
/// for which there was no room is made again.
#[derive(Drop)]
pub struct Screen {
    pub labels: Labels,
    pub covers: Covers,
    pub search: Search,
    pub kept: Kept,
}

impl Screen {
    /// The screen of a grammar whose groups are numbered, or none where its coarse nets would be
    /// too large.
    ///
    /// Takes time linear in the nets of its groups, and for each two groups of one fence in the
    /// pairs of states that are reached.
    pub fn of(alloc: Global, g: &Gram, groups: &Numbers) -> Result<Option<Screen>, Memory>
        requires built { IsBuilt g.now }
        requires groups { AreNumbersBefore g.now (length g.now.rules) groups.now }
        ensures { IfOk result (λ o. IfSome o (IsScreen g.now)) }
    {
        let Some(mut labels) = Labels::of(alloc, g)? else {
            return Ok(None);
        };
        let Some(covers) = Covers::of(alloc, g, &labels, groups)? else {
            return Ok(None);
        };
        if covers.contents.len() != labels.groups() as usize {
            return Ok(None);
        }
        let mut search = Search::new(alloc);
        if !part_groups(&mut labels, &mut search, &covers.contents)? {
            return Ok(None);
        }
        let kept = Kept::none(alloc, g.rules())?;
        Ok(Some(Screen {
            labels,
            covers,
            search,
            kept,
        }))
    }
}
