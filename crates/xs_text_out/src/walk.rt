ghost use Rattle.std.specs.Prelude.{◌≡◌, ◌+◌, ◌<◌, ◌≤◌, ◌++◌, ℕ, List, [], ◌∷◌, Some, length, slice_get, vec_len, vec_capacity, IfSome};
ghost use Rattle.xs_gram.specs.{print, spelling};
ghost use Rattle.xs_gram.specs.Grammar.{Grammar};
ghost use Rattle.xs_tree.specs.{IsFlat, common_at, common_of, production_of, trees_of, word_of};
ghost use Rattle.xs_text_out.specs.Pieces.{ArePieces, IsWithin, piece_word, pieces_word};
ghost use Rattle.xs_text_out.specs.Printed.{AreLengths, rule_items};
ghost use Rattle.xs_text_out.specs.Walk.{AreFalling, IsAside, IsBegun, IsEntry, IsNodeBefore, IsNodeChild, child_word, entered_word, entry_word, left_over, pending, rest_pieces, rest_word, slots_at};

use crate::items::kid_at;
use crate::pieces::{Piece, Pieces, Row, piece_at, text_of};
use xs_class::Sym;
use xs_gram::Gram;
use xs_tree::{Part, Tree};

/// A node that the walk is in: the pieces of its production from one place up to another are still
/// to be printed.
#[derive(Clone, Copy)]
pub struct Task {
    pub part: u64,
    pub place: usize,
    pub end: usize,
}

/// Up to that many symbols are appended one by one: a copy of memory costs more to begin.
const SHORT: usize = 6;

/// Appends symbols one by one, for which there is room.
fn append_each(symbols: &mut Vec<Sym>, piece: &[Sym])
    requires { vec_len symbols.old + length piece.now ≤ vec_capacity symbols.old }
    ensures items { symbols.new.items ≡ symbols.old.items ++ piece.now }
    ensures room { vec_capacity symbols.old ≤ vec_capacity symbols.new }
{
    'symbols: for symbol in piece {
        symbols.push_reserved(*symbol);
    }
}

/// Appends symbols, for which there is room.
fn append(symbols: &mut Vec<Sym>, piece: &[Sym])
    requires { vec_len symbols.old + length piece.now ≤ vec_capacity symbols.old }
    ensures items { symbols.new.items ≡ symbols.old.items ++ piece.now }
    ensures room { vec_capacity symbols.old ≤ vec_capacity symbols.new }
{
    if let [only] = piece {
        symbols.push_reserved(*only);
    } else if let [first, second] = piece {
        symbols.push_reserved(*first);
        symbols.push_reserved(*second);
    } else if piece.len() <= SHORT {
        append_each(symbols, piece);
    } else {
        let Ok(()) = symbols.extend_from_slice(piece) else {
            unreachable!()
        };
    }
}

/// The task to print all pieces of a node's production: none where the grammar has no such rule, as
/// may be at a part that its root does not reach, and none at a leaf.
#[inline(always)]
fn task_of(g: &Gram, pieces: &Pieces, t: &Tree, part: u64) -> Task
    requires pieces { ArePieces g.now pieces.now }
    requires part { part < length t.now.parts }
    ensures part { result.part ≡ part }
    ensures prints { (at : ℕ → List ℕ) → pieces_word pieces.now.text.items (rest_pieces pieces.now result) at ≡ spelling g.now (rule_items g.now (production_of (slice_get t.now.parts part))) at }
{
    let none = Task {
        part,
        place: 0,
        end: 0,
    };
    match t.production(part) {
        None => none,
        Some(production) => {
            if g.rules() <= production {
                return none;
            }
            let Row { begin, end } = pieces.rows[production as usize];
            Task {
                part,
                place: begin,
                end,
            }
        }
    }
}

/// Begins a part: the word of a leaf is written, and all pieces of a node are still to be printed.
fn begin(
    g: &Gram,
    pieces: &Pieces,
    t: &Tree,
    part: u64,
    tasks: &mut Vec<Task>,
    symbols: &mut Vec<Sym>,
)
    requires pieces { ArePieces g.now pieces.now }
    requires flat { IsFlat t.now }
    requires part { part < length t.now.parts }
    requires room { (word : List ℕ) → word_of (slice_get t.now.parts part) ≡ Some word → vec_len symbols.old + length word ≤ vec_capacity symbols.old }
    requires stack { vec_len tasks.old < vec_capacity tasks.old }
    ensures prints { symbols.new.items ++ pending g.now pieces.now t.now tasks.new.items ≡ symbols.old.items ++ (print g.now (common_at t.now part) ++ pending g.now pieces.now t.now tasks.old.items) }
    ensures begun { IsBegun part tasks.old.items tasks.new.items }
    ensures room { vec_capacity symbols.old ≤ vec_capacity symbols.new }
    ensures stack { vec_capacity tasks.new ≡ vec_capacity tasks.old }
{
    match t.word(part) {
        Some(word) => append(symbols, word),
        None => {
            let task = task_of(g, pieces, t, part);
            tasks.push_reserved(task);
        }
    }
}

/// What stands at a slot of a node: a leaf with its word, a node with something to print, or
/// nothing that prints, which is an empty word.
#[derive(Clone, Copy)]
pub enum Child<'t> {
    Word(&'t [Sym]),
    Node(u64),
}

/// What stands at a slot of a node.
#[inline(always)]
fn child_at<'t>(t: &'t Tree, lengths: &[u64], part: u64, slot: u32) -> Child<'t>
    requires flat { IsFlat t.now }
    requires part { part < length t.now.parts }
    requires lengths { length lengths.now ≡ length t.now.parts }
    ensures prints { (g : Grammar) → AreLengths g (trees_of t.now.parts) lengths.now → slots_at g t.now part slot ≡ child_word g t.now result }
    ensures node { IsNodeChild t.now part result }
{
    let kids = t.kids(part);
    let Some(kid) = kid_at(kids, slot) else {
        return Child::Word(&[]);
    };
    match t.part(kid) {
        Part::Leaf(word) => Child::Word(word),
        Part::Node { .. } => {
            if lengths[kid as usize] == 0 {
                Child::Word(&[])
            } else {
                Child::Node(kid)
            }
        }
    }
}

/// Prints a piece of a node, unless it ends with a child that is a node itself with something to
/// print: it is the answer, and is still to be printed.
#[inline(always)]
fn print_piece(
    g: &Gram,
    pieces: &Pieces,
    t: &Tree,
    lengths: &[u64],
    part: u64,
    piece: Piece,
    symbols: &mut Vec<Sym>,
) -> Option<u64>
    requires flat { IsFlat t.now }
    requires lengths { AreLengths g.now (trees_of t.now.parts) lengths.now }
    requires part { part < length t.now.parts }
    requires text { IsWithin pieces.now.text.items piece }
    requires room { vec_len symbols.old + length (piece_word pieces.now.text.items piece (slots_at g.now t.now part)) ≤ vec_capacity symbols.old }
    ensures prints { symbols.new.items ++ entered_word g.now t.now result ≡ symbols.old.items ++ piece_word pieces.now.text.items piece (slots_at g.now t.now part) }
    ensures node { IfSome result (IsNodeBefore t.now part) }
    ensures room { vec_capacity symbols.old ≤ vec_capacity symbols.new }
{
    append(symbols, text_of(&pieces.text, piece));
    let Some(slot) = piece.slot else {
        return None;
    };
    match child_at(t, lengths, part, slot) {
        Child::Word(word) => append(symbols, word),
        Child::Node(kid) => return Some(kid),
    }
    None
}

/// A child of a node that is a node itself with something to print, the place after the piece that
/// ends with it, and whether there are more pieces.
#[derive(Clone, Copy)]
pub struct Entry {
    pub kid: u64,
    pub next: usize,
    pub more: bool,
}

/// Prints the pieces of a node that are still to be printed, up to a child that is a node itself
/// with something to print, if there is one.
#[inline(always)]
fn print_pieces(
    g: &Gram,
    pieces: &Pieces,
    t: &Tree,
    lengths: &[u64],
    task: Task,
    symbols: &mut Vec<Sym>,
) -> Option<Entry>
    requires pieces { ArePieces g.now pieces.now }
    requires flat { IsFlat t.now }
    requires lengths { AreLengths g.now (trees_of t.now.parts) lengths.now }
    requires part { task.part < length t.now.parts }
    requires room { vec_len symbols.old + length (rest_word g.now pieces.now t.now task) ≤ vec_capacity symbols.old }
    ensures prints { symbols.new.items ++ entry_word g.now pieces.now t.now task result ≡ symbols.old.items ++ rest_word g.now pieces.now t.now task }
    ensures entry { IfSome result (IsEntry pieces.now t.now task) }
    ensures room { vec_capacity symbols.old ≤ vec_capacity symbols.new }
{
    'pieces: for place in task.place..task.end {
        let Some(piece) = piece_at(&pieces.all, place) else {
            return None;
        };
        let entered = print_piece(g, pieces, t, lengths, task.part, piece, symbols);
        if let Some(kid) = entered {
            let next = place + 1;
            let more = next < task.end;
            return Some(Entry { kid, next, more });
        }
    }
    None
}

/// Puts a node last that is to be gone on with, if it has more pieces.
#[inline(always)]
fn put_aside(tasks: &mut Vec<Task>, task: Task, more: bool)
    requires { vec_len tasks.old < vec_capacity tasks.old }
    ensures aside { IsAside more task tasks.old.items tasks.new.items }
    ensures stack { vec_capacity tasks.new ≡ vec_capacity tasks.old }
{
    if more {
        tasks.push_reserved(task);
    }
}

/// Prints the pieces of a node, and where a child is a node itself those of the child first, and so
/// on, up to the end of the first node that ends: the others are still to be gone on with.
fn perform(
    g: &Gram,
    pieces: &Pieces,
    t: &Tree,
    lengths: &[u64],
    mut task: Task,
    tasks: &mut Vec<Task>,
    symbols: &mut Vec<Sym>,
)
    requires pieces { ArePieces g.now pieces.now }
    requires flat { IsFlat t.now }
    requires lengths { AreLengths g.now (trees_of t.now.parts) lengths.now }
    requires falling { AreFalling (length t.now.parts) (tasks.old.items ++ task ∷ []) }
    requires room { vec_len symbols.old + length (rest_word g.now pieces.now t.now task ++ pending g.now pieces.now t.now tasks.old.items) ≤ vec_capacity symbols.old }
    requires stack { length t.now.parts ≤ vec_capacity tasks.old }
    ensures prints { symbols.new.items ++ pending g.now pieces.now t.now tasks.new.items ≡ symbols.old.items ++ (rest_word g.now pieces.now t.now task ++ pending g.now pieces.now t.now tasks.old.items) }
    ensures falling { AreFalling (length t.now.parts) tasks.new.items }
    ensures less { left_over pieces.now tasks.new.items < left_over pieces.now (tasks.old.items ++ task ∷ []) }
    ensures room { vec_capacity symbols.old ≤ vec_capacity symbols.new }
    ensures stack { vec_capacity tasks.new ≡ vec_capacity tasks.old }
{
    'nodes: while let Some(entry) = print_pieces(g, pieces, t, lengths, task, symbols) {
        let Entry { kid, next, more } = entry;
        let Task { part, end, .. } = task;
        let begun = task_of(g, pieces, t, kid);
        let rest = Task {
            part,
            place: next,
            end,
        };
        put_aside(tasks, rest, more);
        task = begun;
    }
}

/// Writes the word of the tree into room that was reserved: for its symbols, and for as many nodes
/// as the tree has parts.
pub fn walk(
    g: &Gram,
    pieces: &Pieces,
    t: &Tree,
    lengths: &[u64],
    mut tasks: Vec<Task>,
    mut symbols: Vec<Sym>,
) -> Vec<Sym>
    requires pieces { ArePieces g.now pieces.now }
    requires lengths { AreLengths g.now (trees_of t.now.parts) lengths.now }
    requires no_tasks { tasks.items ≡ [] }
    requires stack { length t.now.parts ≤ vec_capacity tasks }
    requires no_symbols { symbols.items ≡ [] }
    requires room { length (print g.now (common_of t.now)) ≤ vec_capacity symbols }
    ensures { result.items ≡ print g.now (common_of t.now) }
{
    begin(g, pieces, t, t.root(), &mut tasks, &mut symbols);
    'tasks: while let Some(task) = tasks.pop() {
        perform(g, pieces, t, lengths, task, &mut tasks, &mut symbols);
    }
    symbols
}
