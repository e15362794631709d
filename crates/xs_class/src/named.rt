ghost use Rattle.std.specs.Prelude.{◌≡◌, IfOk, IfErr, IsNone, IsSomeAnd};
ghost use Rattle.std.specs.Str.{chars};
ghost use Rattle.xs_class.specs.Named.{set_named, HasMembersOf};

use crate::{Class, Memory, letters};
use std::alloc::Global;
use unicode::sets::{Set, by_name, normalize};

/// Why a name gives no class.
#[derive(Clone, Copy, Debug, PartialEq, Eq)]
pub enum NameFault {
    /// The name stands for no set.
    NoSuchClass,
    Memory,
}

impl From<Memory> for NameFault {
    ghost use Rattle.std.specs.Prelude.{◌≡◌};
    ghost use Rattle.xs_class.specs.declared.named.NameFault.TheVariants as fault;

    ghost from_gives = { λ _ e. e ≡ fault.Memory };

    fn from(_: Memory) -> Self {
        NameFault::Memory
    }
}

impl Class {
    /// The members of the set that the name stands for: a binary property, a general category or a
    /// script, by its name in the Unicode Character Database. Case, spaces, hyphens and underscores
    /// of the name do not matter. `NoSuchClass` comes exactly where the name stands for none.
    pub fn named(alloc: Global, name: &str) -> Result<Class, NameFault>
        ensures found { IfOk result (λ c. IsSomeAnd (set_named (chars name.now)) (HasMembersOf c)) }
        ensures absent { IfErr result (λ e. e ≡ NameFault.NoSuchClass → IsNone (set_named (chars name.now))) }
    {
        match set_of(alloc, name)? {
            Some(set) => Ok(class_of(alloc, set)?),
            None => Err(NameFault::NoSuchClass),
        }
    }
}

/// The set that the name stands for.
fn set_of(alloc: Global, name: &str) -> Result<Option<Set>, Memory>
    ensures { IfOk result (λ set. set ≡ set_named (chars name.now)) }
{
    let letters = letters(alloc, name)?;
    let normal = normalize(alloc, &letters)?;
    match by_name(&normal) {
        Ok(set) => Ok(Some(set)),
        Err(_) => Ok(None),
    }
}

/// The class of the members of the set.
fn class_of(alloc: Global, set: Set) -> Result<Class, Memory>
    ensures { IfOk result (λ c. HasMembersOf c set) }
{
    let ranges = set.ranges(alloc)?;
    let class = Class::from_ranges(alloc, &ranges)?;
    Ok(class)
}
