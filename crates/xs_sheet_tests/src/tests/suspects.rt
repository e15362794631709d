ghost use Rattle.xs_gram.specs.{IsBuilt};

mod doubtful;

use std::alloc::Global;
use xs_gram::Gram;
use xs_horiz::{Horiz, horizontal};
use xs_order::components;
use xs_searches::CheckFault;
use xs_vert::{Vert, vertical};

/// The two rules and the word's length.
type Vertical = Option<(u32, u32, usize)>;

/// The rule and the cut.
type Horizontal = Option<(u32, u32)>;

fn vertical_shown(found: &Option<Vert>) -> Vertical {
    match found {
        Some(vert) => Some((vert.rule, vert.rule2, vert.word.len())),
        None => None,
    }
}

fn horizontal_shown(found: &Option<Horiz>) -> Horizontal {
    match found {
        Some(horiz) => Some((horiz.rule, horiz.cut)),
        None => None,
    }
}

/// The first suspects of both kinds.
fn suspects(alloc: Global, gram: &Gram) -> Result<(Vertical, Horizontal), CheckFault>
    requires { IsBuilt gram.now }
{
    let comps = components(alloc, gram)?;
    let vertical = vertical_shown(&vertical(alloc, gram, &comps)?);
    let horizontal = horizontal_shown(&horizontal(alloc, gram, &comps)?);
    Ok((vertical, horizontal))
}
