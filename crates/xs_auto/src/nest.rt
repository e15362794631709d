mod group;

ghost use Rattle.std.specs.Prelude.{◌≡◌, ◌<◌, ◌-◌, ◌^◌, ◌++◌, ◌∷◌, [], length, OnOk, OnErr, IfOk};
ghost use Rattle.xs_auto.specs.Nets.{states};
ghost use Rattle.xs_auto.specs.Nests.{group_at};

use crate::Net;
use group::Group;
use std::alloc::Global;
use std::marker::Model;
use xs_class::{Memory, Sym};

/// The groups that nets call, numbered from 0.
///
/// A call over a group reads the left symbol of its fence, a word that its content accepts, and the
/// right symbol; the content may call groups too.
#[derive(Debug, Drop)]
pub struct Nest {
    groups: Vec<Group>,
}

impl Model for Nest {
    ghost use Rattle.std.specs.Prelude.{List, ◌<◌, ◌^◌, length};
    ghost use Rattle.xs_auto.specs.Nests.{Group};

    ghost Value = { List Group };

    ghost view = { λ n. n.groups.items };

    ghost invariant = { λ n. length n.groups.items < 2 ^ 32 };
}

impl Nest {
    /// A nest without groups.
    pub fn new(alloc: Global) -> Result<Nest, Memory>
        ensures { IfOk result (λ n. n ≡ []) }
    {
        Ok(Nest {
            groups: Vec::new(alloc),
        })
    }

    /// Adds a group, and gives its number.
    pub fn group(&mut self, left: Sym, right: Sym, content: Net) -> Result<u32, Memory>
        requires { length self.old < 2 ^ 32 - 1 }
        ensures number { IfOk result (λ h. h ≡ length self.old) }
        ensures ok { OnOk result (self.new ≡ self.old ++ (record { left = left; right = right; content = content }) ∷ []) }
        ensures err { OnErr result (self.new ≡ self.old) }
    {
        let number = self.groups.len() as u32;
        self.groups.push(Group {
            left,
            right,
            content,
        })?;
        Ok(number)
    }

    /// The number of groups.
    pub fn len(&self) -> u32
        ensures { result ≡ length self.now }
    {
        self.groups.len() as u32
    }

    /// The number of states of a group's content.
    pub fn states(&self, group: u32) -> u32
        requires { group < length self.now }
        ensures { result ≡ states (group_at self.now group).content }
    {
        self.groups[group as usize].content.len()
    }

    /// The net for what stands inside a group's fence.
    pub fn content(&self, group: u32) -> &Net
        requires { group < length self.now }
        ensures { result.now ≡ (group_at self.now group).content }
    {
        &self.groups[group as usize].content
    }

    /// The left and the right symbol of a group's fence.
    pub fn fence(&self, group: u32) -> (Sym, Sym)
        requires { group < length self.now }
        ensures left { result.0 ≡ (group_at self.now group).left }
        ensures right { result.1 ≡ (group_at self.now group).right }
    {
        let group = &self.groups[group as usize];
        (group.left, group.right)
    }
}
