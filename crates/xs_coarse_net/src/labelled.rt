ghost use Rattle.std.specs.Prelude.{◌≡◌, ◌<◌, length, IfSome, IfOk};
ghost use Rattle.xs_loose.specs.{groups_count};
ghost use Rattle.xs_coarse.specs.{group_label};
ghost use Rattle.xs_coarse_net.specs.Going.{LabelReads, AreLabelsOf};
ghost use Rattle.xs_coarse_net.specs.Sites.{IsSite};

use crate::site::Site;
use std::alloc::Global;
use xs_class::Sym;
use xs_coarse::{Labels, Stop};
use xs_regex::Position;

/// The label of a symbol, if it has one.
pub(crate) fn symbol_label(site: &Site<'_>, symbol: Sym) -> Option<u32>
    ensures { IfSome result (λ label. LabelReads site.now.labels.now label symbol) }
{
    site.labels.symbol(symbol)
}

/// The label of a group.
pub(crate) fn label_of_group(site: &Site<'_>, group: u32) -> u32
    requires site { IsSite site.now }
    requires there { group < groups_count site.now.g.now }
    ensures { result ≡ group_label site.now.labels.now group }
{
    site.labels.group(group)
}

/// The labels of an automaton's positions, if all have one.
pub(crate) fn position_labels(
    alloc: Global,
    labels: &Labels,
    automaton: &Position,
) -> Result<Vec<u32>, Stop>
    ensures long { IfOk result (λ names. length names.items ≡ length automaton.now.classes) }
    ensures labels { IfOk result (λ names. AreLabelsOf labels.now automaton.now names.items) }
{
    let count = automaton.classes.len();
    let mut names = Vec::with_capacity(alloc, count)?;
    'positions: for position in 0..count {
        match labels.class(automaton.classes.at(position)) {
            Some(label) => names.push(label)?,
            None => return Err(Stop::Unfit),
        }
    }
    Ok(names)
}
