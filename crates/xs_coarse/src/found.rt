ghost use Rattle.std.specs.Prelude.{◌≡◌, ℕ, ◌*◌, ◌<◌, ◌≤◌, [], true, false, length, IfOk, OnOk};
ghost use Rattle.xs_auto.specs.{bit_of};
ghost use Rattle.xs_coarse.specs.Arcs.{HasFound, HasTarget, HasAllGiven};
ghost use Rattle.xs_coarse.specs.Found.{Fits, IsMore, IsEmpty};

use crate::pair::Pair;
use std::alloc::Global;
use xs_class::Memory;

/// The greatest number of pairs of states for which a map of marks is kept: 32 megabytes.
const MOST_PAIRS: u64 = 1 << 28;

/// The pairs of states that a search has found, in the order in which it found them, and the map in
/// which they are marked, one bit a pair.
///
/// The states below `height` of the first net are looked at, and those below `width` of the second.
#[derive(Debug, Drop)]
pub struct Found {
    pub pairs: Vec<Pair>,
    pub height: u32,
    pub width: u32,
    pub words: Vec<u64>,
}

impl Found {
    /// No pairs, of no states.
    pub fn new(alloc: Global) -> Self
        ensures { Fits result }
    {
        Found {
            words: Vec::new(alloc),
            pairs: Vec::new(alloc),
            height: 0,
            width: 0,
        }
    }

    /// Adds a pair, unless it is marked already, or is of a state that is not looked at.
    pub fn visit(&mut self, first: u32, second: u32) -> Result<(), Memory>
        requires { Fits self.old }
        ensures more { IsMore self.old self.new }
        ensures ok { OnOk result (HasFound self.new first second) }
    {
        if first >= self.height || second >= self.width {
            return Ok(());
        }
        let cell = first as u64 * self.width as u64 + second as u64;
        let place = (cell / 64) as usize;
        let bit = cell % 64;
        let word = self.words[place];
        if (word >> bit) & 1 == 0 {
            self.pairs.push(Pair { first, second })?;
            self.words[place] = word | (1 << bit);
        }
        Ok(())
    }

    /// Adds a pair, if there is one.
    fn visit_if(&mut self, target: Option<Pair>) -> Result<(), Memory>
        requires { Fits self.old }
        ensures more { IsMore self.old self.new }
        ensures ok { OnOk result (HasTarget self.new target) }
    {
        match target {
            Some(pair) => self.visit(pair.first, pair.second),
            None => Ok(()),
        }
    }

    /// Visits the pair that each of the items leads to, if it leads to one.
    pub fn visit_each<T: Copy, F: Fn(T) -> Option<Pair>>(
        &mut self,
        items: &[T],
        target: F,
    ) -> Result<(), Memory>
        requires fits { Fits self.old }
        requires target { F.IsAlwaysCallable target }
        ensures more { IsMore self.old self.new }
        ensures ok { OnOk result (HasAllGiven (F.post target) self.new items.now) }
    {
        'items: for item in items {
            self.visit_if(target(*item))?;
        }
        Ok(())
    }

    /// Forgets all pairs, in time linear in them.
    fn wipe(&mut self)
        requires { Fits self.old }
        ensures { IsEmpty self.old self.new }
    {
        'places: for place in 0..self.pairs.len() {
            let pair = self.pairs[place];
            let cell = pair.first as u64 * self.width as u64 + pair.second as u64;
            self.words[(cell / 64) as usize] = 0;
        }
        self.pairs.clear();
    }

    /// Forgets all pairs, and makes room for those of the states of a first net and of a second one
    /// below these numbers; answers false where they are too many.
    pub fn begin(&mut self, alloc: Global, height: u32, width: u32) -> Result<bool, Memory>
        requires { Fits self.old }
        ensures fits { Fits self.new }
        ensures ok { IfOk result (λ room. room ≡ true → (self.new.height ≡ height) × (self.new.width ≡ width) × (self.new.pairs.items ≡ [])) }
    {
        self.wipe();
        let cells = height as u64 * width as u64;
        if cells > MOST_PAIRS {
            return Ok(false);
        }
        let count = (cells / 64 + 1) as usize;
        if count > self.words.len() {
            let words = vec![in alloc; 0; count]?;
            self.words = words;
        }
        self.height = height;
        self.width = width;
        Ok(true)
    }
}
