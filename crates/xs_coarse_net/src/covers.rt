ghost use Rattle.std.specs.Prelude.{◌≡◌, ℕ, slice_get, Some, IfOk, IfSome};
ghost use Rattle.xs_loose.specs.{IsPart};
ghost use Rattle.xs_coarse.specs.{Net};
ghost use Rattle.xs_coarse_net.specs.Covers.{IsCoverOf};
ghost use Rattle.xs_coarse_net.specs.Having.{IsCovers};
ghost use Rattle.xs_coarse_net.specs.Sites.{IsReady};

use crate::contents::contents_of;
use crate::ground::Ground;
use crate::leaves::leaves_of;
use crate::site::Site;
use crate::stretch::cover_part;
use crate::whole::whole_net;
use crate::{Cover, Covers};
use std::alloc::Global;
use xs_class::Memory;
use xs_coarse::{Coarse, Labels, Stop, fitting};
use xs_gram::Gram;
use xs_loose::Part;
use xs_regex::Numbers;

impl Covers {
    /// The covers of a grammar whose groups are numbered, or none where one would be too large.
    pub fn of(
        alloc: Global,
        g: &Gram,
        labels: &Labels,
        groups: &Numbers,
    ) -> Result<Option<Covers>, Memory>
        requires { IsReady g.now labels.now groups.now }
        ensures { IfOk result (λ found. IfSome found (IsCovers g.now labels.now)) }
    {
        fitting(covers_of(alloc, g, labels, groups))
    }

    /// The cover of a level stretch, or none where it would be too large. Fragments that it needs are
    /// kept; else the covers stay the same.
    pub fn cover(
        &mut self,
        alloc: Global,
        g: &Gram,
        labels: &Labels,
        groups: &Numbers,
        part: &Part,
    ) -> Result<Option<Cover>, Memory>
        requires ready { IsReady g.now labels.now groups.now }
        requires covers { IsCovers g.now labels.now self.old }
        requires part { IsPart g.now part.now }
        ensures covers { IsCovers g.now labels.now self.new }
        ensures whole { self.new.whole ≡ self.old.whole }
        ensures contents { self.new.contents.items ≡ self.old.contents.items }
        ensures cover { IfOk result (λ found. IfSome found (IsCoverOf g.now labels.now part.now)) }
    {
        let site = Site {
            g,
            labels,
            leaves: &self.leaves,
            groups,
        };
        let ground = Ground {
            alloc,
            site,
            whole: &self.whole,
        };
        fitting(cover_part(&mut self.kept, &ground, part))
    }
}

/// The covers of a grammar.
fn covers_of(alloc: Global, g: &Gram, labels: &Labels, groups: &Numbers) -> Result<Covers, Stop>
    requires { IsReady g.now labels.now groups.now }
    ensures { IfOk result (IsCovers g.now labels.now) }
{
    let leaves = leaves_of(alloc, g, labels)?;
    let site = Site {
        g,
        labels,
        leaves: &leaves,
        groups,
    };
    let whole = whole_net(alloc, &site)?;
    let mut kept = no_fragments(alloc, g.nons())?;
    let ground = Ground {
        alloc,
        site,
        whole: &whole,
    };
    let contents = contents_of(&mut kept, &ground)?;
    Ok(Covers {
        whole,
        leaves,
        kept,
        contents,
    })
}

/// No fragment yet, for that many nonterminals.
fn no_fragments(alloc: Global, nons: u32) -> Result<Vec<Option<Coarse>>, Memory>
    ensures { IfOk result (λ kept. (non : ℕ) (n : Net) → slice_get kept.items non ≡ Some (Some n) → ⊥) }
{
    let mut kept = Vec::with_capacity(alloc, nons as usize)?;
    'nons: for _ in 0..nons {
        kept.push(None)?;
    }
    Ok(kept)
}
