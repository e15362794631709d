ghost use Rattle.std.specs.Prelude.{◌≡◌, ◌+◌, ◌≤◌, length, vec_len, vec_capacity};

use crate::stop::{Halt, Stop};
use xs_lr_forks::{Course, Entry};
use xs_lr_grammar::MOST_ITEMS;
use xs_lr_tables::{
    ACCEPT, CHAIN, FAIL, KIND, LOOK, MOST_LOOKAHEAD, REDUCE, SHIFT, TOKEN, UNKNOWN, to_row,
};
use xs_parse_table::Node;

/// Reads on while there is one action, for this many steps at most, and gives why reading stopped.
/// Nodes and parts are then those of what is read.
pub fn read_on(
    table: &[u32],
    doc: &[u16],
    stack: &mut [Entry],
    nodes: &mut Vec<Node>,
    parts: &mut Vec<u32>,
    steps: usize,
    course: &mut Course,
) -> Stop {
    let mut now = *course;
    'steps: for _ in 0..steps {
        let action = action_at(table, doc, now.row, now.at);
        if action == to_row(now.row, SHIFT) {
            now.at = now.at.wrapping_add(1);
            continue;
        }
        match act(table, stack, nodes, parts, action, now) {
            Ok(next) => now = next,
            Err(halt) => {
                *course = halt.course;
                return halt.stop;
            }
        }
    }
    *course = now;
    Stop::Steps
}

/// The action of a row at a place of the document.
#[inline(always)]
fn cell_at(table: &[u32], doc: &[u16], row: u32, at: u32) -> u32 {
    match doc.get(at as usize) {
        None => FAIL,
        Some(atom) => match table.get(row as usize + *atom as usize) {
            None => FAIL,
            Some(action) => *action,
        },
    }
}

/// The action at a place of the document, after all lookahead.
#[inline(always)]
fn action_at(table: &[u32], doc: &[u16], row: u32, at: u32) -> u32 {
    let action = cell_at(table, doc, row, at);
    if action & KIND == LOOK {
        look(table, doc, action >> 3, at)
    } else {
        action
    }
}

/// The action of a lookahead state's row after a place of the document.
#[inline(always)]
fn look(table: &[u32], doc: &[u16], row: u32, at: u32) -> u32 {
    let mut row = row;
    let mut at = at;
    'atoms: for _ in 0..MOST_LOOKAHEAD {
        at = at.wrapping_add(1);
        let action = cell_at(table, doc, row, at);
        if action & KIND != LOOK {
            return action;
        }
        row = action >> 3;
    }
    FAIL
}

/// Does an action that is not a step inside one state.
#[inline(always)]
fn act(
    table: &[u32],
    stack: &mut [Entry],
    nodes: &mut Vec<Node>,
    parts: &mut Vec<u32>,
    action: u32,
    course: Course,
) -> Result<Course, Halt> {
    if action & REDUCE != 0 {
        reduce(table, stack, nodes, parts, action, course)
    } else if action & TOKEN != 0 {
        end_token(stack, action, course)
    } else if action & SHIFT != 0 {
        Ok(Course {
            row: action >> 3,
            at: course.at.wrapping_add(1),
            depth: course.depth,
        })
    } else {
        halt(course, stop_of(action))
    }
}

/// The stop at a place, with nothing done.
#[inline(always)]
fn halt<T>(course: Course, stop: Stop) -> Result<T, Halt> {
    Err(Halt { course, stop })
}

/// Why reading stops at an action that is not to be done.
fn stop_of(action: u32) -> Stop {
    match action {
        UNKNOWN => Stop::Unknown,
        ACCEPT => Stop::Accept,
        FAIL => Stop::Fail,
        _ => Stop::Fork,
    }
}

/// Ends a token, and goes to the LR state after it.
#[inline(always)]
fn end_token(stack: &mut [Entry], action: u32, course: Course) -> Result<Course, Halt> {
    let row = action >> 3;
    let end = course.at.wrapping_add(action & SHIFT);
    let entry = Entry {
        row,
        end,
        part: end,
    };
    put_entry(stack, course.depth, entry, course)
}

/// Puts an entry at a place of the stack: what is read ends there.
#[inline(always)]
fn put_entry(
    stack: &mut [Entry],
    place: u32,
    entry: Entry,
    course: Course,
) -> Result<Course, Halt> {
    let Some(there) = stack.get_mut(place as usize) else {
        return halt(course, Stop::Entries);
    };
    *there = entry;
    Ok(Course {
        row: entry.row,
        at: entry.end,
        depth: place.wrapping_add(1),
    })
}

/// Ends a production, and goes to the LR state after its nonterminal.
#[inline(always)]
fn reduce(
    table: &[u32],
    stack: &mut [Entry],
    nodes: &mut Vec<Node>,
    parts: &mut Vec<u32>,
    action: u32,
    course: Course,
) -> Result<Course, Halt> {
    let production = action >> 3;
    let Some(cell) = table.get(production as usize) else {
        return halt(course, Stop::Fail);
    };
    let token = (action & TOKEN) >> 1;
    let end = course.at.wrapping_add(action & SHIFT);
    let above = course.depth.wrapping_add(token);
    let down = above.wrapping_sub(*cell & MOST_ITEMS);
    let begin = down as usize;
    let depth = course.depth as usize;
    if begin == 0 || depth < begin || stack.len() < depth {
        return halt(course, Stop::Fail);
    }
    if stack.len() == begin {
        return halt(course, Stop::Entries);
    }
    let below = stack[begin - 1];
    let row = goto(table, below.row, *cell >> 10, course)?;
    let node = Node {
        production,
        parts: number_of(parts.len()),
        from: below.end,
        to: end,
    };
    let part = push_node(nodes, parts, node, &stack[begin..depth], token, course)?;
    let entry = Entry { row, end, part };
    let last = if row & CHAIN == 0 {
        entry
    } else {
        chain(table, nodes, parts, below, entry, node.parts, course)?
    };
    put_entry(stack, down, last, course)
}

/// Where a goto cell leads.
#[inline(always)]
fn goto(table: &[u32], row: u32, cell: u32, course: Course) -> Result<u32, Halt> {
    match table.get(row as usize + cell as usize) {
        None => halt(course, Stop::Fail),
        Some(0) => halt(course, Stop::Goto { row, cell }),
        Some(to) => Ok(*to),
    }
}

/// The number of the element after a list of this length, which here fits 32 bits.
#[inline(always)]
fn number_of(length: usize) -> u32 {
    (length % (1 << 32)) as u32
}

/// Puts a node next with the parts of entries, and that of a token that ends, where there is room
/// for all of it, and gives the node's number. Most nodes have few entries, so the first two stand
/// apart from the loop.
#[inline(always)]
fn push_node(
    nodes: &mut Vec<Node>,
    parts: &mut Vec<u32>,
    node: Node,
    entries: &[Entry],
    token: u32,
    course: Course,
) -> Result<u32, Halt> {
    if nodes.len() >= nodes.capacity() {
        return halt(course, Stop::Nodes);
    }
    if parts.capacity() - parts.len() <= entries.len() {
        return halt(course, Stop::Parts);
    }
    let number = number_of(nodes.len());
    nodes.push_reserved(node);
    if let [first, others @ ..] = entries {
        parts.push_reserved(first.part);
        if let [second, others @ ..] = others {
            parts.push_reserved(second.part);
            push_parts(parts, others);
        }
    }
    if token != 0 {
        parts.push_reserved(node.to);
    }
    Ok(number)
}

/// Puts the parts of entries next, for which there is room.
#[inline(always)]
fn push_parts(parts: &mut Vec<u32>, entries: &[Entry])
    requires { vec_len parts.old + length entries.now ≤ vec_capacity parts.old }
    ensures length { vec_len parts.new ≡ vec_len parts.old + length entries.now }
    ensures room { vec_capacity parts.old ≤ vec_capacity parts.new }
{
    'entries: for entry in entries {
        parts.push_reserved(entry.part);
    }
}

/// Ends the productions of one item that follow from the last node, as long as a goto is such a
/// production; where it stops, that node goes too, and its parts from one on.
fn chain(
    table: &[u32],
    nodes: &mut Vec<Node>,
    parts: &mut Vec<u32>,
    below: Entry,
    made: Entry,
    from: u32,
    course: Course,
) -> Result<Entry, Halt> {
    let mut last = made;
    'productions: for _ in 0..table.len() {
        if last.row & CHAIN == 0 {
            break;
        }
        match link(table, nodes, parts, below, last, course) {
            Ok(next) => last = next,
            Err(halt) => {
                nodes.truncate(made.part as usize);
                parts.truncate(from as usize);
                return Err(halt);
            }
        }
    }
    Ok(last)
}

/// Ends a production of one item, the last node.
#[inline(always)]
fn link(
    table: &[u32],
    nodes: &mut Vec<Node>,
    parts: &mut Vec<u32>,
    below: Entry,
    last: Entry,
    course: Course,
) -> Result<Entry, Halt> {
    let production = last.row & !CHAIN;
    let Some(cell) = table.get(production as usize) else {
        return halt(course, Stop::Fail);
    };
    let row = goto(table, below.row, *cell >> 10, course)?;
    let node = Node {
        production,
        parts: number_of(parts.len()),
        from: below.end,
        to: last.end,
    };
    let part = push_node(nodes, parts, node, &[last], 0, course)?;
    Ok(Entry {
        row,
        end: last.end,
        part,
    })
}
