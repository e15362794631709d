ghost use Rattle.std.specs.Prelude.{ℕ, ◌≡◌, ◌<◌, ◌≤◌, Some, length, IfOk};
ghost use Rattle.xs_forest_laws.specs.{alts_of, count_of, IsChosen, IsRoot, IsForestOf};
ghost use Rattle.xs_listing.specs.Sizes.{AreSizes};
ghost use Rattle.xs_listing.specs.Writing.{IsSource};
ghost use Rattle.xs_listing.specs.Spelt.{IsListingOf};
ghost use Rattle.xs_listing.specs.Numbered.{IsSpeltBy, AreSpeltBy};

use crate::count::{Chosen, choose, count_rows};
use crate::rows::alts_at;
use crate::sizes::{first_sizes, size_of};
use crate::write::{Source, Written, write_front};
use crate::{Kids, Listing, Spelt, SpeltPart, Spelts};
use std::alloc::Global;
use xs_class::{Listed, Memory, Word};
use xs_forest_laws::Grown;
use xs_gram::Gram;

/// The alternative of the root in which the derivation of a number lies.
fn root_choice(source: &Source<'_, '_>, root: u64, number: u64) -> Chosen
    requires source { IsSource source.now }
    requires root { IsRoot source.now.g.now source.now.doc.now source.now.forest.now root }
    requires within { number < count_of source.now.counts.now (Some root) }
    ensures { (n : ℕ) × IsChosen source.now.cap source.now.counts.now (alts_of source.now.forest.now root) number n result.left result.right result.alt }
{
    choose(
        source.counts,
        alts_at(source.forest, root),
        source.cap,
        number,
    )
}

/// How many parts the derivation of a number has below its root, at most 2^64 less 1.
fn room_of(
    alloc: Global,
    source: &Source<'_, '_>,
    sizes: &[u64],
    root: u64,
    number: u64,
) -> Result<u64, Memory>
    requires source { IsSource source.now }
    requires sized { length sizes.now ≡ length source.now.forest.now }
    requires sizes { AreSizes source.now.g.now source.now.doc.now source.now.forest.now sizes.now }
    requires root { IsRoot source.now.g.now source.now.doc.now source.now.forest.now root }
    requires within { number < count_of source.now.counts.now (Some root) }
{
    let chosen = root_choice(source, root, number);
    size_of(alloc, source, sizes, chosen.alt.left, chosen.left)
}

/// The rooms of that many first derivations.
fn rooms_of(
    alloc: Global,
    source: &Source<'_, '_>,
    sizes: &[u64],
    root: u64,
    count: u64,
) -> Result<Vec<u64>, Memory>
    requires source { IsSource source.now }
    requires sized { length sizes.now ≡ length source.now.forest.now }
    requires sizes { AreSizes source.now.g.now source.now.doc.now source.now.forest.now sizes.now }
    requires root { IsRoot source.now.g.now source.now.doc.now source.now.forest.now root }
    requires within { count ≤ count_of source.now.counts.now (Some root) }
    ensures { IfOk result (λ rooms. length rooms.items ≡ count) }
{
    let mut rooms = Vec::with_capacity(alloc, count as usize)?;
    'numbers: for number in 0..count {
        let room = room_of(alloc, source, sizes, root, number)?;
        rooms.push(room)?;
    }
    Ok(rooms)
}

/// The derivation of a number, written with room for that many parts below its root.
fn spell(
    alloc: Global,
    source: &Source<'_, '_>,
    root: u64,
    number: u64,
    room: u64,
) -> Result<Spelt, Memory>
    requires source { IsSource source.now }
    requires root { IsRoot source.now.g.now source.now.doc.now source.now.forest.now root }
    requires within { number < count_of source.now.counts.now (Some root) }
    ensures { IfOk result (IsSpeltBy source.now root number) }
{
    let chosen = root_choice(source, root, number);
    let written = write_front(alloc, source, chosen.alt.left, chosen.left, room)?;
    let Written { mut parts, places } = written;
    let kids = Kids::of(alloc, &places)?;
    parts.push(SpeltPart::Node {
        production: chosen.alt.rule,
        kids,
    })?;
    Ok(Listed::from_vec(parts))
}

/// That many first derivations, each with its room.
fn spell_all(
    alloc: Global,
    source: &Source<'_, '_>,
    root: u64,
    count: u64,
    rooms: &[u64],
) -> Result<Spelts, Memory>
    requires source { IsSource source.now }
    requires root { IsRoot source.now.g.now source.now.doc.now source.now.forest.now root }
    requires within { count ≤ count_of source.now.counts.now (Some root) }
    requires rooms { length rooms.now ≡ count }
    ensures { IfOk result (AreSpeltBy source.now root count) }
{
    let mut trees = Vec::with_capacity(alloc, count as usize)?;
    'numbers: for number in 0..count {
        let spelt = spell(alloc, source, root, number, rooms[number as usize])?;
        trees.push(spelt)?;
    }
    Ok(Listed::from_vec(trees))
}

/// Different derivations of the document, as many as there are or `max`, whichever is less, and
/// whether there are more than `max`.
///
/// The unfoldings of the forest's root are numbered, and counted no further than `max` and one
/// more, so that the work is linear in the forest and in what is written. Where a derivation is
/// larger than any memory the answer is want of memory at once.
pub fn list_trees(
    alloc: Global,
    grown: &Grown<'_>,
    g: &Gram,
    doc: &Word,
    max: u32,
) -> Result<Listing, Memory>
    requires { IsForestOf g.now doc.now grown.now.forest grown.now.root }
    ensures { IfOk result (IsListingOf g.now doc.now max) }
{
    let max = u64::from(max);
    let counts = count_rows(alloc, &grown.forest, max + 1)?;
    let source = Source {
        g,
        doc,
        forest: &grown.forest,
        counts: &counts,
        cap: max + 1,
    };
    let count = counts[grown.root as usize];
    let listed = count.min(max);
    let sizes = first_sizes(alloc, g, doc, &grown.forest)?;
    let rooms = rooms_of(alloc, &source, &sizes, grown.root, listed)?;
    // Their memory is given back before the trees are written.
    drop(sizes);
    let trees = spell_all(alloc, &source, grown.root, listed, &rooms)?;
    Ok(Listing {
        trees,
        more: count > max,
    })
}
