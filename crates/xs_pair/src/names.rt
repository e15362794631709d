ghost use Rattle.std.specs.Prelude.{◌≡◌, ◌<◌, length, IfOk};
ghost use Rattle.xs_pair.specs.Units as U;

use crate::Directory;
use std::alloc::Global;
use xs_class::{Memory, Text};
use xs_sheet::Unit;

/// Which units are meant.
#[derive(Clone, Copy, Debug, PartialEq, Eq)]
pub enum Sort {
    /// Any unit that has a name: a fence has none, and is of no sort.
    Any,
    /// Terminals and ignorables.
    Lexical,
    Terminal,
    Ignorable,
    Production,
}

/// The name of a unit; of a fence, which has none, its first text.
pub fn unit_name(unit: &Unit) -> &Text
    ensures { result.now ≡ U.unit_name unit.now }
{
    match unit {
        Unit::Terminal { name, .. } => name,
        Unit::Ignorable { name, .. } => name,
        Unit::Production { name, .. } => name,
        Unit::Fence { left, .. } => left,
    }
}

/// The line of a unit.
pub fn unit_line(unit: &Unit) -> u32
    ensures { result ≡ U.unit_line unit.now }
{
    match unit {
        Unit::Terminal { line, .. } => *line,
        Unit::Ignorable { line, .. } => *line,
        Unit::Production { line, .. } => *line,
        Unit::Fence { line, .. } => *line,
    }
}

/// Whether the unit is of the sort.
pub fn is_of(sort: Sort, unit: &Unit) -> bool
    ensures { result ≡ U.is_of sort unit.now }
{
    match unit {
        Unit::Terminal { .. } => match sort {
            Sort::Any | Sort::Lexical | Sort::Terminal => true,
            Sort::Ignorable | Sort::Production => false,
        },
        Unit::Ignorable { .. } => match sort {
            Sort::Any | Sort::Lexical | Sort::Ignorable => true,
            Sort::Terminal | Sort::Production => false,
        },
        Unit::Production { .. } => match sort {
            Sort::Any | Sort::Production => true,
            Sort::Lexical | Sort::Terminal | Sort::Ignorable => false,
        },
        Unit::Fence { .. } => false,
    }
}

/// The names of the units of a sort, in the order of the units.
pub fn names_of(alloc: Global, sort: Sort, units: &[Unit]) -> Result<Vec<Text>, Memory>
    ensures { IfOk result (λ v. v.items ≡ U.names_of sort units.now) }
{
    let mut names = Vec::new(alloc);
    'units: for unit in units {
        if is_of(sort, unit) {
            let name = unit_name(unit).copy()?;
            names.push(name)?;
        }
    }
    Ok(names)
}

/// Each name of a list once, in the order of their first places.
pub fn firsts(alloc: Global, list: &Directory) -> Result<Vec<Text>, Memory>
    ensures names { IfOk result (λ v. v.items ≡ U.firsts list.now) }
    ensures few { IfOk result (λ v. length v.items < 65536) }
{
    let mut names = Vec::new(alloc);
    let texts = list.as_slice();
    'texts: for (place, name) in texts.iter().enumerate() {
        if list.is_first(name.as_str(), place) {
            let name = name.copy()?;
            names.push(name)?;
        }
    }
    Ok(names)
}

/// The texts once more.
pub fn copies(alloc: Global, texts: &[Text]) -> Result<Vec<Text>, Memory>
    ensures { IfOk result (λ v. v.items ≡ texts.now) }
{
    let mut all = Vec::with_capacity(alloc, texts.len())?;
    'texts: for text in texts {
        let text = text.copy()?;
        all.push(text)?;
    }
    Ok(all)
}
