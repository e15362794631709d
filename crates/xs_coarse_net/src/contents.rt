ghost use Rattle.std.specs.Prelude.{◌+◌, ◌<◌, length, IfOk, OnOk};
ghost use Rattle.xs_gram.specs.{spread};
ghost use Rattle.xs_coarse.specs.{CoversGroups};
ghost use Rattle.xs_coarse_net.specs.Contents.{nest_of, HasContentsBefore};
ghost use Rattle.xs_coarse_net.specs.Grounds.{IsGround};
ghost use Rattle.xs_coarse_net.specs.Joining.{AreFragments};

use crate::Content;
use crate::ground::Ground;
use crate::stretch::cover_part;
use xs_coarse::{Coarse, Stop};
use xs_loose::Fenced;

/// The contents of all groups of a grammar, by their numbers.
pub(crate) fn contents_of(
    kept: &mut Vec<Option<Coarse>>,
    ground: &Ground<'_>,
) -> Result<Vec<Content>, Stop>
    requires ground { IsGround ground.now }
    requires kept { AreFragments ground.now.site.g.now ground.now.site.labels.now kept.old.items }
    ensures kept { AreFragments ground.now.site.g.now ground.now.site.labels.now kept.new.items }
    ensures contents { IfOk result (λ cs. CoversGroups ground.now.site.g.now (nest_of ground.now.site.labels.now cs.items)) }
{
    let mut contents = Vec::new(ground.alloc);
    'rules: for rule in 0..ground.site.g.rules() {
        add_contents(&mut contents, kept, ground, rule)?;
    }
    Ok(contents)
}

/// Adds the contents of a rule's groups.
fn add_contents(
    contents: &mut Vec<Content>,
    kept: &mut Vec<Option<Coarse>>,
    ground: &Ground<'_>,
    rule: u32,
) -> Result<(), Stop>
    requires ground { IsGround ground.now }
    requires rule { rule < length ground.now.site.g.now.rules }
    requires kept { AreFragments ground.now.site.g.now ground.now.site.labels.now kept.old.items }
    requires contents { HasContentsBefore ground.now.site.g.now rule 0 (nest_of ground.now.site.labels.now contents.old.items) }
    ensures kept { AreFragments ground.now.site.g.now ground.now.site.labels.now kept.new.items }
    ensures contents { OnOk result (HasContentsBefore ground.now.site.g.now (rule + 1) 0 (nest_of ground.now.site.labels.now contents.new.items)) }
{
    'items: for place in 0..ground.site.g.spread(rule).len() as u32 {
        add_content(contents, kept, ground, rule, place)?;
    }
    Ok(())
}

/// Adds the content of the group whose left fence is a rule's spread item, if it is one.
fn add_content(
    contents: &mut Vec<Content>,
    kept: &mut Vec<Option<Coarse>>,
    ground: &Ground<'_>,
    rule: u32,
    place: u32,
) -> Result<(), Stop>
    requires ground { IsGround ground.now }
    requires rule { rule < length ground.now.site.g.now.rules }
    requires place { place < length (spread ground.now.site.g.now rule) }
    requires kept { AreFragments ground.now.site.g.now ground.now.site.labels.now kept.old.items }
    requires contents { HasContentsBefore ground.now.site.g.now rule place (nest_of ground.now.site.labels.now contents.old.items) }
    ensures kept { AreFragments ground.now.site.g.now ground.now.site.labels.now kept.new.items }
    ensures contents { OnOk result (HasContentsBefore ground.now.site.g.now rule (place + 1) (nest_of ground.now.site.labels.now contents.new.items)) }
{
    let Some(fenced) = Fenced::at(ground.site.g, rule, place) else {
        return Ok(());
    };
    let cover = cover_part(kept, ground, &fenced.inside)?;
    contents.push(Content {
        left: fenced.left,
        right: fenced.right,
        cover,
    })?;
    Ok(())
}
