ghost use Rattle.std.specs.Prelude.{◌≡◌, ◌<◌, ◌∷◌, [], Some, length, slice_get, IsTrue, IfSome};
ghost use Rattle.xs_gram.specs.{IsUnfenced};
ghost use Rattle.xs_coarse.specs.Labels.{AllUnfenced};

use crate::stop::Stop;
use std::alloc::Global;
use xs_class::{Class, Sym};
use xs_gram::{GItem, Gram};

/// How many classes there may be.
const MOST: usize = 4096;

/// The number of hints, which is a power of two.
const HINTS: usize = 4096;

/// Distinct classes by their numbers.
///
/// Where a class may stand a hint says, by a number that is made of its ends. A hint may be wrong.
#[derive(Debug, Drop)]
pub struct Known {
    pub classes: Vec<Class>,
    hints: Vec<u32>,
}

impl Known {
    /// The classes of the automata of a grammar, and one for each symbol of its fixed words that is in
    /// no fence.
    pub fn of(alloc: Global, g: &Gram) -> Result<Known, Stop> {
        let mut known = Known {
            classes: Vec::new(alloc),
            hints: vec![in alloc; 0; HINTS]?,
        };
        'terms: for term in 0..g.terms() {
            known.add_all(g.term(term).classes.as_slice())?;
        }
        'skips: for skip in 0..g.skips() {
            known.add_all(g.skip(skip).classes.as_slice())?;
        }
        'rules: for rule in 0..g.rules() {
            known.add_rule(alloc, g, rule)?;
        }
        Ok(known)
    }

    /// Adds the classes that are not there.
    fn add_all(&mut self, classes: &[Class]) -> Result<(), Stop> {
        'classes: for class in classes {
            if self.find(class.ranges()).is_none() {
                self.add(class.copy()?)?;
            }
        }
        Ok(())
    }

    /// Adds the symbols of the fixed words of a rule.
    fn add_rule(&mut self, alloc: Global, g: &Gram, rule: u32) -> Result<(), Stop>
        requires { rule < length g.now.rules }
    {
        'items: for item in g.items(rule) {
            match item {
                GItem::Fixed(word) => self.add_symbols(alloc, g.fences(), word.as_slice())?,
                GItem::Term { .. } | GItem::Non { .. } | GItem::Skip { .. } => (),
            }
        }
        Ok(())
    }

    /// Adds the symbols that are not there, each as a class, but for those of fences.
    fn add_symbols(
        &mut self,
        alloc: Global,
        fences: &[(Sym, Sym)],
        symbols: &[Sym],
    ) -> Result<(), Stop> {
        'symbols: for symbol in symbols {
            let range = (symbol.number(), symbol.number());
            if self.find(&[range]).is_none() {
                let class = Class::from_ranges(alloc, &[range])?;
                if is_unfenced(fences, &class) {
                    self.add(class)?;
                }
            }
        }
        Ok(())
    }

    /// Adds a class.
    fn add(&mut self, class: Class) -> Result<(), Stop> {
        let number = self.classes.len();
        if number >= MOST {
            return Err(Stop::Unfit);
        }
        let place = hint_place(class.ranges());
        if place < self.hints.len() {
            self.hints[place] = number as u32;
        }
        self.classes.push(class)?;
        Ok(())
    }

    /// The number of the class of these ranges, if it is there.
    pub fn find(&self, ranges: &[(u32, u32)]) -> Option<u32>
        ensures { IfSome result (λ n. slice_get self.now.classes.items n ≡ Some ranges.now) }
    {
        let place = hint_place(ranges);
        if place < self.hints.len() {
            let hint = self.hints[place];
            if is_at(&self.classes, hint, ranges) {
                return Some(hint);
            }
        }
        search(&self.classes, ranges)
    }
}

/// The place of the hint for these ranges.
#[inline(always)]
fn hint_place(ranges: &[(u32, u32)]) -> usize {
    match ranges.first() {
        None => 0,
        Some(range) => {
            let mixed = range.0 ^ (range.0 >> 10) ^ (range.1.wrapping_sub(range.0) << 3);
            mixed as usize % HINTS
        }
    }
}

/// Whether the class at the number has these ranges.
#[inline(always)]
fn is_at(classes: &[Class], number: u32, ranges: &[(u32, u32)]) -> bool
    ensures { IsTrue result → slice_get classes.now number ≡ Some ranges.now }
{
    let place = number as usize;
    place < classes.len() && classes[place].ranges() == ranges
}

/// The number of the first class that has these ranges.
fn search(classes: &[Class], ranges: &[(u32, u32)]) -> Option<u32>
    ensures { IfSome result (λ n. slice_get classes.now n ≡ Some ranges.now) }
{
    'classes: for place in 0..classes.len() {
        let Ok(number) = u32::try_from(place) else {
            return None;
        };
        if is_at(classes, number, ranges) {
            return Some(number);
        }
    }
    None
}

/// Whether no fence symbol is in the class.
pub fn is_unfenced(fences: &[(Sym, Sym)], class: &Class) -> bool
    ensures { IsTrue result → IsUnfenced fences.now class.now }
{
    'fences: for fence in fences {
        if class.has(fence.0) || class.has(fence.1) {
            return false;
        }
    }
    true
}

/// Whether no fence symbol is in any of the classes.
pub fn are_unfenced(fences: &[(Sym, Sym)], classes: &[Class]) -> bool
    ensures { IsTrue result → AllUnfenced fences.now classes.now }
{
    'classes: for class in classes {
        if !is_unfenced(fences, class) {
            return false;
        }
    }
    true
}
