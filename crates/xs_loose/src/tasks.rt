ghost use Rattle.std.specs.Prelude.{◌≡◌, suc, ◌+◌, ◌<◌, ◌≤◌, [], length, Some, IfOk, OnOk};
ghost use Rattle.xs_auto.specs.{states};
ghost use Rattle.xs_gram.specs.{rule_of, spread, AreOne};
ghost use Rattle.xs_check_laws.specs.{heaviest};
ghost use Rattle.xs_loose.specs.Making.{IsRuleLaid, IsTaskDone};
ghost use Rattle.xs_loose.specs.Walking.{IsHome, HasRoom};
ghost use Rattle.xs_loose.specs.Work.{Gains, IsSite, IsTask, AreTasks};

use crate::Part;
use crate::growth::pass;
use crate::site::{Home, Laid, Site, Spot, Task, Walk};
use xs_class::Memory;

impl Site<'_> {
    /// Lays all components that were left to tasks, and those that they leave in turn.
    pub fn lay_tasks(&self, into: &mut Laid) -> Result<(), Memory>
        requires site { IsSite self.now }
        requires few { states into.old.net ≤ suc heaviest }
        requires tasks { AreTasks self.now.g.now self.now.tables.now.weights (states into.old.net) into.old.tasks.items }
        ensures { OnOk result (Gains self.now.g.now [] into.old.net into.old.tasks.items into.new.net []) }
    {
        'tasks: while let Some(task) = into.tasks.pop() {
            self.lay_component(into, task)?;
        }
        Ok(())
    }

    /// Lays the component of a task: the rules of its members, one after another.
    fn lay_component(&self, into: &mut Laid, task: Task) -> Result<(), Memory>
        requires site { IsSite self.now }
        requires few { states into.old.net ≤ suc heaviest }
        requires task { IsTask self.now.g.now self.now.tables.now.weights (states into.old.net) task }
        ensures { OnOk result (IsTaskDone self.now.g.now self.now.tables.now.weights task into.old.net into.old.tasks.items into.new.net into.new.tasks.items) }
    {
        let component = *self.comps.at(task.non as usize) as usize;
        let members = self.tables.lists.members[component].len() as u32;
        let rules = self.tables.lists.rules[component].as_slice();
        let home = Home {
            non: task.non,
            first: task.at,
        };
        let mut place = task.at + 2 * members;
        'rules: for rule in rules {
            place = self.lay_rule(into, home, *rule, place)?;
        }
        Ok(())
    }

    /// Lays a rule of a member of the component of its home, whose place 0 is given, and gives the
    /// next free state: a move from the entry of its nonterminal, its items, and a move to the exit.
    fn lay_rule(&self, into: &mut Laid, home: Home, rule: u32, place: u32) -> Result<u32, Memory>
        requires site { IsSite self.now }
        requires few { states into.old.net ≤ suc heaviest }
        requires home { IsHome self.now.g.now (states into.old.net) (Some home) }
        requires rule { rule < length self.now.g.now.rules }
        requires member { AreOne self.now.g.now home.non (rule_of self.now.g.now rule).non }
        requires room { HasRoom self.now.g.now (states into.old.net) (Some home) rule 0 (spread self.now.g.now rule) (record { before = place; at = suc place }) }
        ensures { IfOk result (λ next. IsRuleLaid self.now.g.now self.now.tables.now.weights home rule place next into.old.net into.old.tasks.items into.new.net into.new.tasks.items) }
    {
        let entry = self.entry_of(home, self.g.non_of(rule));
        pass(&mut into.net, entry, place)?;
        let part = Part {
            rule,
            start: 0,
            end: self.g.spread(rule).len() as u32,
        };
        let spot = Spot {
            before: place,
            at: place + 1,
        };
        let walk = Walk {
            site: self,
            home: Some(home),
        };
        let last = walk.lay_items(into, part, spot)?;
        pass(&mut into.net, last.before, entry + 1)?;
        Ok(last.at)
    }
}
