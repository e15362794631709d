ghost use Rattle.std.specs.Prelude.{◌≡◌, ◌∷◌, ◌++◌, [], false, true, if◌then◌else◌, IfOk, IfSome, OnOk};
ghost use Rattle.xs_xml_laws.specs.{is_name, opening, closing, lines};
ghost use Rattle.xs_form.specs.Sorted.{shown_ordered, entry_symbols};
ghost use Rattle.xs_form.specs.Seen.{declared, letter, given, begins, stands, ends, aside, section, shown_event};
ghost use Rattle.xs_form.specs.State.{next_run as next_run_of, initial, line_symbols, state_of, is_inside, IsRun, texted, step, taken, finished, is_named};

use crate::marks::{Guesses, Mark, mark_of};
use crate::pieces::Event;
use crate::runs::{bare_run, equal, white};
use crate::sorted::{Ordered, push_ordered};
use std::alloc::Global;
use xs_class::{Memory, Names, Sym, Word};

/// What is kept between two pieces: the names of the open elements, the innermost last, whether the
/// root element has ended, whether no piece was read yet, of how many of the last pieces, two at
/// most, each is the character `]`, the symbols so far, and places of names.
#[derive(Drop)]
pub struct Reader<'a> {
    names: Vec<&'a [Sym]>,
    ended: bool,
    fresh: bool,
    run: u32,
    word: Word,
    guesses: Guesses,
}

/// A CR gives LF, and the LF of CR LF nothing more.
fn push_line(word: &mut Word, after_return: bool, number: u32) -> Result<(), Memory>
    ensures { OnOk result (word.new ≡ word.old ++ line_symbols after_return number) }
{
    if number == 10 && after_return {
        return Ok(());
    }
    word.push(if number == 13 { Sym(10) } else { Sym(number) })?;
    Ok(())
}

/// Appends a text with its line ends as LF.
fn push_lines(word: &mut Word, text: &[Sym]) -> Result<(), Memory>
    ensures { OnOk result (word.new ≡ word.old ++ lines false text.now) }
{
    let mut after_return = false;
    'symbols: for symbol in text {
        let number = symbol.number();
        push_line(word, after_return, number)?;
        after_return = number == 13;
    }
    Ok(())
}

/// The marks of a tag's opening and of its attributes.
fn push_opening(
    word: &mut Word,
    guesses: &mut Guesses,
    alloc: Global,
    names: &Names,
    name: &[Sym],
    attributes: Ordered<'_>,
) -> Result<(), Memory>
    requires { is_name name.now ≡ true }
    ensures { OnOk result (word.new ≡ word.old ++ opening names.now name.now ∷ entry_symbols names.now (shown_ordered attributes.entry)) }
{
    let place = guesses.place(alloc, names, name)?;
    word.push(mark_of(Mark::Opening, place))?;
    push_ordered(word, guesses, alloc, names, attributes)
}

/// The mark of an element's end.
fn push_closing(
    word: &mut Word,
    guesses: &mut Guesses,
    alloc: Global,
    names: &Names,
    name: &[Sym],
) -> Result<(), Memory>
    requires { is_name name.now ≡ true }
    ensures { OnOk result (word.new ≡ word.old ++ closing names.now name.now ∷ []) }
{
    let place = guesses.place(alloc, names, name)?;
    word.push(mark_of(Mark::Closing, place))?;
    Ok(())
}

impl<'a> Reader<'a> {
    /// A reader that has read nothing yet, with room for that many symbols.
    pub fn with_room(alloc: Global, room: usize) -> Result<Self, Memory>
        ensures { IfOk result (λ reader. state_of reader ≡ initial) }
    {
        Ok(Reader {
            names: Vec::new(alloc),
            ended: false,
            fresh: true,
            run: 0,
            word: Word::from_vec(Vec::with_capacity(alloc, room)?),
            guesses: Guesses::new(alloc)?,
        })
    }

    /// Whether an element is open.
    fn is_inside(&self) -> bool
        ensures { result ≡ is_inside (state_of self.now).spot }
    {
        !self.names.is_empty()
    }

    /// Takes a declaration, where it may stand here.
    fn declaration(&mut self) -> bool
        ensures { taken result (state_of self.new) ≡ step [] (state_of self.old) declared }
    {
        if !self.fresh {
            return false;
        }
        self.fresh = false;
        self.run = 0;
        true
    }

    /// Takes a comment or an instruction.
    fn aside(&mut self)
        ensures { taken true (state_of self.new) ≡ step [] (state_of self.old) aside }
    {
        self.fresh = false;
        self.run = 0;
    }

    /// The run of characters that the text begins with and that an open element takes as they are,
    /// where there is one, and the rest.
    pub fn run_at(&self, text: &'a [Sym]) -> Option<(&'a [Sym], &'a [Sym])>
        ensures { IfSome result (λ r. IsRun (state_of self.now) text.now r.0.now r.1.now) }
    {
        if !self.is_inside() {
            return None;
        }
        let (run, rest) = bare_run(text);
        if run.is_empty() {
            None
        } else {
            Some((run, rest))
        }
    }

    /// Takes such a run.
    pub fn text(&mut self, run: &[Sym]) -> Result<(), Memory>
        ensures { OnOk result (state_of self.new ≡ texted (state_of self.old) run.now) }
    {
        self.word.extend(run)?;
        self.fresh = false;
        self.run = 0;
        Ok(())
    }

    /// Takes a character, where it may stand here.
    fn character(&mut self, c: u32) -> Result<bool, Memory>
        ensures { IfOk result (λ b. taken b (state_of self.new) ≡ step [] (state_of self.old) (letter c)) }
    {
        if c == 62 && self.run == 2 {
            return Ok(false);
        }
        if self.is_inside() {
            self.word.push(Sym(c))?;
        } else if !white(Sym(c)) {
            return Ok(false);
        }
        self.fresh = false;
        self.run = next_run(self.run, c);
        Ok(true)
    }

    /// Takes the character of a reference, where it may stand here.
    fn reference(&mut self, c: u32) -> Result<bool, Memory>
        ensures { IfOk result (λ b. taken b (state_of self.new) ≡ step [] (state_of self.old) (given c)) }
    {
        if !self.is_inside() {
            return Ok(false);
        }
        self.word.push(Sym(c))?;
        self.fresh = false;
        self.run = 0;
        Ok(true)
    }

    /// Takes a start tag or an empty tag, where it may stand here.
    fn tag(
        &mut self,
        alloc: Global,
        names: &Names,
        name: &'a [Sym],
        attributes: Ordered<'a>,
        empty: bool,
    ) -> Result<bool, Memory>
        requires { is_name name.now ≡ true }
        ensures { IfOk result (λ b. taken b (state_of self.new) ≡ step names.now (state_of self.old) (if empty then stands name.now (shown_ordered attributes.entry) else begins name.now (shown_ordered attributes.entry))) }
    {
        if self.names.is_empty() {
            if self.ended {
                return Ok(false);
            }
            self.ended = empty;
        }
        push_opening(
            &mut self.word,
            &mut self.guesses,
            alloc,
            names,
            name,
            attributes,
        )?;
        if empty {
            push_closing(&mut self.word, &mut self.guesses, alloc, names, name)?;
        } else {
            self.names.push(name)?;
        }
        self.fresh = false;
        self.run = 0;
        Ok(true)
    }

    /// Takes an end tag, where it may stand here.
    fn end(&mut self, alloc: Global, names: &Names, name: &[Sym]) -> Result<bool, Memory>
        requires { is_name name.now ≡ true }
        ensures { IfOk result (λ b. taken b (state_of self.new) ≡ step names.now (state_of self.old) (ends name.now)) }
    {
        let Some(open) = self.names.pop() else {
            return Ok(false);
        };
        if !equal(name, open) {
            return Ok(false);
        }
        self.ended = self.names.is_empty();
        push_closing(&mut self.word, &mut self.guesses, alloc, names, name)?;
        self.fresh = false;
        self.run = 0;
        Ok(true)
    }

    /// Takes a CDATA section, where it may stand here.
    fn section(&mut self, body: &[Sym]) -> Result<bool, Memory>
        ensures { IfOk result (λ b. taken b (state_of self.new) ≡ step [] (state_of self.old) (section body.now)) }
    {
        if !self.is_inside() {
            return Ok(false);
        }
        push_lines(&mut self.word, body)?;
        self.fresh = false;
        self.run = 0;
        Ok(true)
    }

    /// Whether the piece may stand here. Where it may, its symbols are appended.
    pub fn take(&mut self, alloc: Global, names: &Names, event: Event<'a>) -> Result<bool, Memory>
        requires { is_named (shown_event event) ≡ true }
        ensures { IfOk result (λ b. taken b (state_of self.new) ≡ step names.now (state_of self.old) (shown_event event.entry)) }
    {
        match event {
            Event::Declaration => Ok(self.declaration()),
            Event::Character(c) => self.character(c),
            Event::Reference(c) => self.reference(c),
            Event::Start { name, attributes } => self.tag(alloc, names, name, attributes, false),
            Event::Empty { name, attributes } => self.tag(alloc, names, name, attributes, true),
            Event::End(name) => self.end(alloc, names, name),
            Event::Aside => {
                self.aside();
                Ok(true)
            }
            Event::Section(body) => self.section(body),
        }
    }

    /// The symbols, where the root element has ended.
    pub fn finish(self) -> Option<Word>
        ensures { result ≡ finished (state_of self.entry) }
    {
        if self.names.is_empty() && self.ended {
            Some(self.word)
        } else {
            None
        }
    }
}

/// How many of the last pieces, two at most, are the character `]` after one more.
fn next_run(run: u32, c: u32) -> u32
    ensures { result ≡ next_run_of run c }
{
    if c != 93 {
        0
    } else if run == 0 {
        1
    } else {
        2
    }
}
