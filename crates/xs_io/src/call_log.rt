ghost use Rattle.std.specs.Prelude.{◌≡◌, ◌≤◌, ◌↔◌, ◌+◌, IsErr, IsTrue, Contains};

use crate::Failed;

/// The calls of a device in memory: how many there were, which are to fail, and how many failed.
#[derive(Debug, Drop)]
pub(crate) struct CallLog {
    fails: Vec<u64>,
    made: u64,
    faults: u64,
}

impl CallLog {
    ghost use Rattle.xs_io.specs.CallLog.{IsListed, Begins, IsCounted, one_more, fails_of, made_of, faults_of};

    /// No call yet. The calls with these numbers, from 1, are to fail.
    pub(crate) fn new(fails: Vec<u64>) -> Self
        ensures fails { fails_of result ≡ fails.items }
        ensures none { made_of result ≡ 0 }
        ensures faults { faults_of result ≡ 0 }
    {
        CallLog {
            fails,
            made: 0,
            faults: 0,
        }
    }

    /// Begins the next call.
    pub(crate) fn begin(&mut self) -> Result<(), Failed>
        ensures listed { IsErr result ↔ IsListed self.old }
        ensures counted { Begins self.old self.new }
        ensures faults { IsCounted (faults_of self.old) (faults_of self.new) result }
        ensures later { faults_of self.old ≤ faults_of self.new }
    {
        let listed = is_listed(&self.fails, self.made);
        self.made = self.made.saturating_add(1);
        if listed {
            return Err(self.fail());
        }
        Ok(())
    }

    /// The call that was begun fails.
    pub(crate) fn fail(&mut self) -> Failed
        ensures fails { fails_of self.new ≡ fails_of self.old }
        ensures made { made_of self.new ≡ made_of self.old }
        ensures faults { faults_of self.new ≡ one_more (faults_of self.old) }
        ensures later { faults_of self.old ≤ faults_of self.new }
    {
        self.faults = self.faults.saturating_add(1);
        Failed
    }
}

/// Whether the call after that many others is to fail. A call past the greatest number is never listed.
fn is_listed(fails: &[u64], made: u64) -> bool
    ensures { IsTrue result ↔ Contains fails.now (made + 1) }
{
    match made.checked_add(1) {
        Some(number) => fails.contains(&number),
        None => false,
    }
}
