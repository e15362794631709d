ghost use Rattle.std.specs.Prelude.{◌≡◌, false, IfOk};
ghost use Rattle.xs_regex.specs.Automaton.{IsWellFormed};
ghost use Rattle.xs_regex.specs.Parts.{bare, of_class, optional, CanJoin, IsThen, IsEither, IsRound};

use crate::lists::{append, extended, link, link_after, push_rows, push_shifted};
use crate::{Follows, Numbers, Position};
use std::alloc::Global;
use xs_class::{Class, Listed, Memory};

/// The automaton of no position.
pub fn nothing(alloc: Global, nullable: bool) -> Position
    ensures { result ≡ bare nullable }
{
    Position {
        classes: Listed::new(alloc),
        first: Listed::new(alloc),
        last: Listed::new(alloc),
        follow: Listed::new(alloc),
        nullable,
    }
}

/// The automaton of one class.
#[inline(never)]
pub fn single(alloc: Global, class: &Class) -> Result<Position, Memory>
    ensures { IfOk result (λ p. p ≡ of_class class.now) }
{
    let mut p = nothing(alloc, false);
    add_class(alloc, &mut p, class)?;
    Ok(p)
}

/// Gives an automaton of no position one that begins and ends.
fn add_class(alloc: Global, p: &mut Position, class: &Class) -> Result<(), Memory>
    requires { p.old ≡ bare false }
    ensures { IfOk result (λ _. p.new ≡ of_class class.now) }
{
    p.classes.push(class.copy()?)?;
    p.first.push(0)?;
    p.last.push(0)?;
    p.follow.push(Listed::new(alloc))?;
    Ok(())
}

/// Puts another automaton, which is used up, after one.
pub fn sequence(alloc: Global, p: &mut Position, q: &mut Position) -> Result<(), Memory>
    requires { CanJoin p.old q.old }
    ensures { IfOk result (λ _. IsThen p.old q.old p.new) }
{
    let by = p.classes.len() as u32;
    link_after(
        alloc,
        &mut p.follow,
        p.last.as_slice(),
        by,
        q.first.as_slice(),
    )?;
    if p.nullable {
        push_shifted(&mut p.first, by, q.first.as_slice())?;
    }
    if !q.nullable {
        p.last = Numbers::new(alloc);
    }
    push_shifted(&mut p.last, by, q.last.as_slice())?;
    push_rows(alloc, &mut p.follow, by, q.follow.as_slice())?;
    p.nullable = p.nullable && q.nullable;
    append(alloc, &mut p.classes, &mut q.classes)
}

/// Puts another automaton, which is used up, beside one.
pub fn either(alloc: Global, p: &mut Position, q: &mut Position) -> Result<(), Memory>
    requires { CanJoin p.old q.old }
    ensures { IfOk result (λ _. IsEither p.old q.old p.new) }
{
    let by = p.classes.len() as u32;
    push_shifted(&mut p.first, by, q.first.as_slice())?;
    push_shifted(&mut p.last, by, q.last.as_slice())?;
    push_rows(alloc, &mut p.follow, by, q.follow.as_slice())?;
    p.nullable = p.nullable || q.nullable;
    append(alloc, &mut p.classes, &mut q.classes)
}

/// Lets an automaton go once or more.
pub fn round(alloc: Global, p: &mut Position) -> Result<(), Memory>
    requires { IsWellFormed p.old }
    ensures { IfOk result (λ _. IsRound p.old p.new) }
{
    link(alloc, &mut p.follow, p.last.as_slice(), p.first.as_slice())
}

/// An automaton, or the empty word.
pub fn maybe(p: Position) -> Position
    ensures { result ≡ optional p }
{
    let mut whole = p;
    whole.nullable = true;
    whole
}

/// The same automaton once more.
pub fn copied(alloc: Global, p: &Position) -> Result<Position, Memory>
    ensures { IfOk result (λ q. q ≡ p.now) }
{
    let mut classes = Vec::with_capacity(alloc, p.classes.len())?;
    'classes: for class in p.classes.as_slice() {
        classes.push(class.copy()?)?;
    }
    Ok(Position {
        classes: Listed::from_vec(classes),
        first: extended(Numbers::new(alloc), p.first.as_slice())?,
        last: extended(Numbers::new(alloc), p.last.as_slice())?,
        follow: rows_copied(alloc, p.follow.as_slice())?,
        nullable: p.nullable,
    })
}

/// The same rows once more.
fn rows_copied(alloc: Global, rows: &[Numbers]) -> Result<Follows, Memory>
    ensures { IfOk result (λ all. all ≡ rows.now) }
{
    let mut all = Vec::with_capacity(alloc, rows.len())?;
    'rows: for row in rows {
        all.push(extended(Numbers::new(alloc), row.as_slice())?)?;
    }
    Ok(Listed::from_vec(all))
}
