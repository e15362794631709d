ghost use Rattle.std.specs.Prelude.{◌≡◌, ◌<◌, ◌∷◌, [], IfOk, IfSome};
ghost use Rattle.xs_coarse.specs.Coarse.{group_label, may_meet, IsTable};
ghost use Rattle.xs_coarse.specs.Labels.{IsClassLabel, AreNewLabels, parted};

use crate::bits::bits_of;
use crate::known::{Known, are_unfenced};
use crate::lefts::lefts;
use crate::stop::{Stop, fitting};
use std::alloc::Global;
use std::marker::Model;
use xs_class::{Class, Memory, Sym};
use xs_gram::Gram;

/// How many labels there may be.
const MOST: usize = 8192;

/// The labels of a grammar: 0 for what reads nothing, then one for each class, then one for each group.
#[derive(Debug, Drop)]
pub struct Labels {
    known: Known,
    groups: u32,
    width: usize,
    bits: Vec<bool>,
}

impl Model for Labels {
    ghost use Rattle.xs_coarse.specs.Coarse.{Table};
    ghost use Rattle.xs_coarse.specs.Labels.{AreKept};

    ghost Value = { Table };

    ghost view = { λ l. record { classes = l.known.classes.items; groups = l.groups; bits = l.bits.items } };

    ghost invariant = { λ l. AreKept (record { classes = l.known.classes.items; groups = l.groups; bits = l.bits.items }) l.width };
}

impl Labels {
    /// The labels of a grammar, or None where there are more than 8,191, or a class has a fence symbol.
    ///
    /// Two groups may read a common word where they have the same left fence symbol.
    pub fn of(alloc: Global, g: &Gram) -> Result<Option<Labels>, Memory>
        ensures { IfOk result (λ o. IfSome o (AreNewLabels g.now)) }
    {
        fitting(Labels::made(alloc, g))
    }

    /// The same, with a cause where there are none.
    fn made(alloc: Global, g: &Gram) -> Result<Labels, Stop>
        ensures { IfOk result (AreNewLabels g.now) }
    {
        let known = Known::of(alloc, g)?;
        let lefts = lefts(alloc, g)?;
        let classes = known.classes.as_slice();
        if classes.len() + lefts.len() >= MOST || !are_unfenced(g.fences(), classes) {
            return Err(Stop::Unfit);
        }
        let width = 1 + classes.len() + lefts.len();
        let bits = bits_of(alloc, classes, &lefts, width)?;
        Ok(Labels {
            known,
            groups: lefts.len() as u32,
            width,
            bits,
        })
    }

    /// The label of a class, if it has one.
    pub fn class(&self, class: &Class) -> Option<u32>
        ensures { IfSome result (IsClassLabel self.now.classes class.now) }
    {
        let number = self.known.find(class.ranges())?;
        Some(number + 1)
    }

    /// The label of a symbol as a class of its own, if it has one.
    pub fn symbol(&self, s: Sym) -> Option<u32>
        ensures { IfSome result (IsClassLabel self.now.classes ((s, s) ∷ [])) }
    {
        let number = self.known.find(&[(s.number(), s.number())])?;
        Some(number + 1)
    }

    /// How many groups have labels.
    pub fn groups(&self) -> u32
        ensures { result ≡ self.now.groups }
    {
        self.groups
    }

    /// The label of a group.
    pub fn group(&self, h: u32) -> u32
        requires { h < self.now.groups }
        ensures { result ≡ group_label self.now h }
    {
        1 + self.known.classes.len() as u32 + h
    }

    /// Whether two labels may read a common word, in constant time; numbers of no label do not.
    #[inline(always)]
    pub fn meet(&self, l: u32, k: u32) -> bool
        ensures meets { result ≡ may_meet self.now l k }
        ensures table { IsTable self.now }
    {
        match self.bits.get(l as usize * self.width + k as usize) {
            Some(bit) => *bit,
            None => false,
        }
    }

    /// Notes that two groups read no common word.
    pub fn part(&mut self, h: u32, k: u32)
        requires first { h < self.old.groups }
        requires second { k < self.old.groups }
        ensures { self.new ≡ parted self.old h k }
    {
        let before = 1 + self.known.classes.len();
        let a = before + h as usize;
        let b = before + k as usize;
        self.bits[a * self.width + b] = false;
        self.bits[b * self.width + a] = false;
    }
}
