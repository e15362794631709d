use std::alloc::Global;
use xs_auto::{Call, Nest, Net};
use xs_class::{Listed, Memory, empty_lists};

/// For each group of a nest the groups whose contents call it. They guide a search, and no answer
/// rests on them.
#[derive(Drop)]
pub struct Callers {
    rows: Vec<Listed<u32>>,
}

impl Callers {
    /// The callers of each group, in time linear in the contents.
    pub fn of(alloc: Global, nest: &Nest) -> Result<Callers, Memory> {
        let mut callers = Callers {
            rows: empty_lists(alloc, nest.len() as usize)?,
        };
        'groups: for group in 0..nest.len() {
            callers.add_content(nest.content(group), group)?;
        }
        Ok(callers)
    }

    /// Adds a group to the callers of those that its content calls.
    fn add_content(&mut self, content: &Net, group: u32) -> Result<(), Memory> {
        'states: for state in 0..content.len() {
            self.add_calls(content.calls(state), group)?;
        }
        Ok(())
    }

    /// Adds a group to the callers of those that are called.
    fn add_calls(&mut self, calls: &[Call], group: u32) -> Result<(), Memory> {
        'calls: for call in calls {
            self.add(call.group, group)?;
        }
        Ok(())
    }

    /// Adds a group to the callers of another, unless it is the last of them.
    fn add(&mut self, called: u32, group: u32) -> Result<(), Memory> {
        let place = called as usize;
        if place < self.rows.len() && self.of_group(called).last() != Some(&group) {
            let row = &mut self.rows[place];
            row.push(group)?;
        }
        Ok(())
    }

    /// The callers of a group.
    pub fn of_group(&self, group: u32) -> &[u32] {
        match self.rows.get(group as usize) {
            Some(row) => row.as_slice(),
            None => &[],
        }
    }
}
