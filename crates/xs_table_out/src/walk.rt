ghost use Rattle.std.specs.Prelude.{◌≡◌, ◌<◌, ◌+◌, ◌++◌, ◌∷◌, [], ℕ, List, slice_get, slice_range, IsTrue, IfOk, IfSome, OnOk, MatchOption};
ghost use Rattle.xs_gram.specs.{Derivation, Derives, IsBuilt, print, strip};
ghost use Rattle.xs_parse_table.specs.{IsTreeOf};
ghost use Rattle.xs_table_out.specs.Steps.{AreSteps, HasTexts};
ghost use Rattle.xs_table_out.specs.Writing.{Writes};
ghost use Rattle.xs_table_out.specs.Walk.{begin_of, rest_steps, next_task, IsWordAt, IsTaskOf, IsChildTask, IsLastTask, IsPrinted, AreOwed, IsGone, IsAside};

use crate::children::{Begin, Child};
use crate::printing::Printing;
use crate::steps::{Step, StepRow, Steps};
use crate::stretch::stretch;
use crate::writer::Writer;
use std::alloc::Global;
use xs_class::{Memory, Sym};
use xs_gram::Gram;
use xs_parse_table::{Node, ParseTable};

/// A node that is being printed: the number of its first part, where it begins in the document, and
/// the steps from one place up to another that are still to be done.
#[derive(Clone, Copy)]
pub struct Task {
    pub parts: u32,
    pub from: u32,
    pub place: usize,
    pub end: usize,
}

/// A part of a node.
#[inline(always)]
fn part_at(parts: &[u32], first: u32, part: u32) -> Option<u32>
    ensures { result ≡ slice_get parts.now (first + part) }
{
    parts.get(first as usize + part as usize).copied()
}

/// The node of this number.
#[inline(always)]
fn node_at(nodes: &[Node], number: u32) -> Option<Node>
    ensures { result ≡ slice_get nodes.now number }
{
    nodes.get(number as usize).copied()
}

/// Where a word of a node begins.
#[inline(always)]
fn begin_of(nodes: &[Node], parts: &[u32], task: Task, begin: Begin) -> Option<u32>
    ensures { result ≡ begin_of nodes.now parts.now task.parts task.from begin }
{
    match begin {
        Begin::Here => Some(task.from),
        Begin::AfterWord(part) => part_at(parts, task.parts, part),
        Begin::AfterNode(part) => {
            let number = part_at(parts, task.parts, part)?;
            let node = node_at(nodes, number)?;
            Some(node.to)
        }
    }
}

/// The word of a node's leaf.
#[inline(always)]
fn word_at<'d>(
    doc: &'d [Sym],
    nodes: &[Node],
    parts: &[u32],
    task: Task,
    begin: Begin,
    part: u32,
) -> Option<&'d [Sym]>
    ensures { IfSome result (λ word. IsWordAt doc.now nodes.now parts.now task begin part word.now) }
{
    let at = begin_of(nodes, parts, task, begin)?;
    let to = part_at(parts, task.parts, part)?;
    stretch(doc, at as usize, to as usize)
}

/// The task to print a node.
#[inline(always)]
fn task_of(rows: &[StepRow], node: Node) -> Option<Task>
    ensures { IfSome result (IsTaskOf rows.now node) }
{
    let row = rows.get(node.production as usize)?;
    Some(Task {
        parts: node.parts,
        from: node.from,
        place: row.begin,
        end: row.end,
    })
}

/// The task to print a node's child.
#[inline(always)]
fn child_task(
    rows: &[StepRow],
    nodes: &[Node],
    parts: &[u32],
    task: Task,
    part: u32,
) -> Option<Task>
    ensures { IfSome result (IsChildTask rows.now nodes.now parts.now task part) }
{
    let number = part_at(parts, task.parts, part)?;
    let node = node_at(nodes, number)?;
    task_of(rows, node)
}

/// What comes of a step: its word is written, or a child is to be printed next, or a part was not
/// right.
#[derive(Clone, Copy)]
pub enum Printed {
    Wrong,
    Done,
    Entered(Task),
}

/// Writes the text of a step, which mostly has some; false where it cannot be written.
#[inline(always)]
fn put_text<W: Writer>(
    steps: &Steps,
    number: usize,
    step: Step,
    out: &mut W,
) -> Result<bool, Memory>
    requires step { slice_get steps.now.all.items number ≡ Some step }
    requires texts { HasTexts steps.now (W.text out.old) }
    ensures put { IfOk result (λ done. IsTrue done → Writes (W.whole out.old) (W.whole out.new) (slice_range steps.now.text.items step.begin step.end)) }
    ensures same { W.text out.new ≡ W.text out.old }
{
    if step.end <= step.begin {
        return Ok(true);
    }
    out.put_text(number)
}

/// Writes the text of a step and the word at its slot, unless that is a node's.
#[inline(always)]
fn print_step<W: Writer>(
    steps: &Steps,
    doc: &[Sym],
    nodes: &[Node],
    parts: &[u32],
    task: Task,
    step: Step,
    out: &mut W,
) -> Result<Printed, Memory>
    requires step { slice_get steps.now.all.items task.place ≡ Some step }
    requires texts { HasTexts steps.now (W.text out.old) }
    ensures printed { IfOk result (IsPrinted steps.now doc.now nodes.now parts.now task step (W.whole out.old) (W.whole out.new)) }
    ensures same { W.text out.new ≡ W.text out.old }
{
    if !put_text(steps, task.place, step, out)? {
        return Ok(Printed::Wrong);
    }
    match step.child {
        Child::Nothing => Ok(Printed::Done),
        Child::Word { begin, part } => {
            let Some(word) = word_at(doc, nodes, parts, task, begin, part) else {
                return Ok(Printed::Wrong);
            };
            if out.put_word(word)? {
                Ok(Printed::Done)
            } else {
                Ok(Printed::Wrong)
            }
        }
        Child::Node { part } => match child_task(&steps.rows, nodes, parts, task, part) {
            None => Ok(Printed::Wrong),
            Some(child) => Ok(Printed::Entered(child)),
        },
    }
}

/// The next step of a task, if there is one.
#[inline(always)]
fn next_step(all: &[Step], task: Task) -> Option<Step>
    ensures next { MatchOption result (rest_steps all.now task ≡ []) (λ step. rest_steps all.now task ≡ step ∷ rest_steps all.now (next_task task)) }
    ensures there { IfSome result (λ step. slice_get all.now task.place ≡ Some step) }
{
    if task.place < task.end {
        all.get(task.place).copied()
    } else {
        None
    }
}

/// Puts a task last that is to be gone on with, if it has more steps.
#[inline(always)]
fn put_aside(tasks: &mut Vec<Task>, task: Task) -> Result<(), Memory>
    ensures { OnOk result (IsAside task tasks.old.items tasks.new.items) }
{
    if task.place < task.end {
        tasks.push(task)?;
    }
    Ok(())
}

/// What is to be gone on with: a task, or nothing, where all is printed or a part was not right.
#[derive(Clone, Copy)]
pub enum Next {
    Wrong,
    End,
    Go(Task),
}

/// Does the next step of a task, or goes back to the last one that was put aside.
#[inline(always)]
fn go_on<W: Writer>(
    g: &Gram,
    h: &Gram,
    steps: &Steps,
    doc: &[Sym],
    table: &ParseTable,
    task: Task,
    tasks: &mut Vec<Task>,
    out: &mut W,
) -> Result<Next, Memory>
    requires built { IsBuilt g.now }
    requires steps { AreSteps g.now h.now steps.now }
    requires texts { HasTexts steps.now (W.text out.old) }
    ensures same { W.text out.new ≡ W.text out.old }
    ensures gone { IfOk result (λ next. (rest : List ℕ) → AreOwed g.now h.now steps.now doc.now table.now (tasks.old.items ++ task ∷ []) rest
        → IsGone g.now h.now steps.now doc.now table.now (W.whole out.old rest) (W.whole out.new) tasks.new.items next) }
{
    let Some(step) = next_step(&steps.all, task) else {
        return match tasks.pop() {
            None => Ok(Next::End),
            Some(last) => Ok(Next::Go(last)),
        };
    };
    let after = Task {
        place: task.place + 1,
        ..task
    };
    match print_step(steps, doc, &table.nodes, &table.parts, task, step, out)? {
        Printed::Wrong => Ok(Next::Wrong),
        Printed::Done => Ok(Next::Go(after)),
        Printed::Entered(child) => {
            put_aside(tasks, after)?;
            Ok(Next::Go(child))
        }
    }
}

/// The task to print the last node.
fn root_task(rows: &[StepRow], nodes: &[Node]) -> Option<Task>
    ensures { IfSome result (IsLastTask rows.now nodes.now) }
{
    let count = nodes.len();
    if count == 0 {
        return None;
    }
    task_of(rows, nodes[count - 1])
}

/// Writes the word of what is printed; false where a part of the table is not right. In time linear
/// in the nodes and the word.
pub fn write_table<W: Writer>(
    alloc: Global,
    printing: &Printing,
    out: &mut W,
) -> Result<bool, Memory>
    requires built { IsBuilt printing.now.from.now }
    requires steps { AreSteps printing.now.from.now printing.now.to.now printing.now.steps.now }
    requires texts { HasTexts printing.now.steps.now (W.text out.old) }
    ensures { IfOk result (λ done. IsTrue done → (d : Derivation)
        → IsTreeOf printing.now.table.now printing.now.doc.now d → Derives printing.now.from.now printing.now.doc.now d
        → W.whole out.new [] ≡ W.whole out.old (print printing.now.to.now (strip printing.now.from.now d))) }
{
    let Some(mut task) = root_task(&printing.steps.rows, &printing.table.nodes) else {
        return Ok(false);
    };
    let mut tasks = Vec::new(alloc);
    'steps: for _ in 0..u64::MAX {
        match go_on(
            printing.from,
            printing.to,
            printing.steps,
            printing.doc,
            printing.table,
            task,
            &mut tasks,
            out,
        )? {
            Next::Wrong => return Ok(false),
            Next::End => return Ok(true),
            Next::Go(next) => task = next,
        }
    }
    Ok(false)
}
