ghost use Rattle.std.specs.Prelude.{◌≡◌, Some, None, IsSome};
ghost use Rattle.std.specs.declared.option.Option.{Option};
ghost use Rattle.xs_pair.specs.Grammars.{Pair};
ghost use Rattle.xs_c.specs.Held.{held_owns, held_coded};

use crate::kept::Kept;
use crate::parts::Parts;
use std::alloc::Global;
use std::marker::Model;
use std::ptr::null_mut;

/// What C sees behind a handle.
#[repr(C)]
pub struct Opaque {
    pub none: u8,
}

/// What C holds of an open sheet: a pointer that owns what is kept of it; or nothing.
#[repr(C)]
#[derive(Drop)]
pub struct Held {
    at: *mut Opaque,
    alloc: Global,
    pub ghost kept: { Option Pair } by { held_coded },
}

impl Model for Held {
    ghost also_owns = { λ h. held_owns h.alloc h.at h.kept };
}

impl Held {
    /// Nothing.
    pub fn empty(alloc: Global) -> Held
        ensures { result.kept ≡ None }
    {
        Held {
            at: null_mut(),
            alloc,
        }
    }

    /// What is kept, handed to C.
    pub fn of_parts(parts: Parts<Kept, Global>) -> Held
        ensures { result.kept ≡ Some parts.value }
    {
        let Parts { at, alloc } = parts;
        Held {
            at: at as *mut Opaque,
            alloc,
        }
    }

    /// What is kept, taken back from C.
    pub fn into_parts(self) -> Parts<Kept, Global>
        requires { IsSome self.kept }
        ensures { self.kept ≡ Some result.value }
    {
        let Held { at, alloc } = self;
        Parts {
            at: at as *mut Kept,
            alloc,
        }
    }
}
