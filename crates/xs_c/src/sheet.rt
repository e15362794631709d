ghost use Rattle.std.specs.Prelude.{◌≡◌, None, Some, is_some, IfSome, IfNone};

use crate::held::Held;
use crate::kept::Kept;
use crate::parts::Parts;
use std::alloc::Global;
use std::mem::replace;

/// A sheet in the hands of C, which is open or closed. C passes it where it lies, and never copies
/// it; one that is all zero is closed.
#[repr(C)]
#[derive(Drop)]
pub struct Sheet {
    pub is_open: bool,
    pub held: Held,
    pub ghost holds: { is_open ≡ is_some held.kept },
}

impl Sheet {
    /// A sheet that is closed.
    pub fn closed(alloc: Global) -> Sheet
        ensures { result.held.kept ≡ None }
    {
        Sheet {
            is_open: false,
            held: Held::empty(alloc),
        }
    }

    /// A sheet that is open.
    pub fn opened(kept: Box<Kept>) -> Sheet
        ensures { result.held.kept ≡ Some kept.value }
    {
        Sheet {
            is_open: true,
            held: Held::of_parts(Parts::of(kept)),
        }
    }

    /// What is kept of a sheet, which is closed then; None where it is closed.
    pub fn take(&mut self, alloc: Global) -> Option<Box<Kept>>
        ensures kept { IfSome result (λ kept. self.old.held.kept ≡ Some kept.value) }
        ensures none { IfNone result (self.old.held.kept ≡ None) }
        ensures closed { self.new.held.kept ≡ None }
    {
        let Sheet { is_open, held } = replace(self, Sheet::closed(alloc));
        if is_open {
            Some(held.into_parts().into_box())
        } else {
            None
        }
    }
}
