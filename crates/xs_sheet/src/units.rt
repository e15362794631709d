ghost use Rattle.std.specs.Prelude.{◌≡◌, true, IfOk};
ghost use Rattle.xs_regex.specs.declared.regex.Regex.{Regex};
ghost use Rattle.xs_sheet.specs.Regular.{IsRegex};
ghost use Rattle.xs_sheet.specs.Grammar.{HaveRegexes};
ghost use Rattle.xs_sheet.specs.Outline.{unit_outline};
ghost use Rattle.xs_sheet.specs.Grammar.{HasRegex};
ghost use Rattle.xs_sheet.specs.Machine as M;
ghost use Rattle.xs_sheet.specs.View.{head_view, unit_view, transition_view, UnitHasRegexes, TransitionHasRegexes};

use crate::piece::Piece;
use crate::regular::regex_of;
use crate::state::{Begun, Draft, Head, ItemState, Site, State, Transition, UnitState};
use crate::{Sheet, Unit, Units};
use std::alloc::Global;
use xs_class::{Memory, Text};
use xs_lex::Kind;
use xs_regex::Regex;

/// A text of its own with these characters.
pub fn copy(alloc: Global, text: &Text) -> Result<Text, Memory>
    ensures { IfOk result (λ t. t ≡ text.now) }
{
    Text::of(alloc, text.as_str())
}

/// The piece is refused, and what was read so far is given up.
pub fn refuse<T: Drop>(_so_far: T) -> Transition
    ensures view { transition_view result ≡ M.refuse }
    ensures regexes { TransitionHasRegexes result }
{
    Transition::Refuse
}

/// What was read so far, and the piece's text.
pub fn with_text<T: Drop>(alloc: Global, so_far: T, piece: &Piece) -> Result<(T, Text), Memory>
    ensures so_far { IfOk result (λ both. both.0 ≡ so_far) }
    ensures text { IfOk result (λ both. both.1 ≡ piece.now.text) }
{
    let text = copy(alloc, &piece.text)?;
    Ok((so_far, text))
}

/// The head with one more unit.
pub fn with_unit(mut head: Head, unit: Unit) -> Result<Head, Memory>
    requires head { HaveRegexes head.units.items }
    requires unit { HasRegex unit }
    ensures view { IfOk result (λ h. head_view h ≡ M.with_unit (head_view head) (unit_outline unit)) }
    ensures regexes { IfOk result (λ h. HaveRegexes h.units.items) }
{
    head.units.push(unit)?;
    Ok(head)
}

/// At the front.
fn begin(piece: &Piece) -> Transition
    ensures view { transition_view result ≡ M.step M.begin piece.now }
    ensures regexes { TransitionHasRegexes result }
{
    if piece.is_word("xsugar-1") {
        return Transition::Go(State::Unit(UnitState::Versioned(1)));
    }
    if piece.is_word("xsugar-2") {
        return Transition::Go(State::Unit(UnitState::Versioned(2)));
    }
    Transition::Refuse
}

/// After the version word.
fn versioned(version: u32, piece: &Piece) -> Transition
    ensures view { transition_view result ≡ M.step (M.versioned version) piece.now }
    ensures regexes { TransitionHasRegexes result }
{
    if !piece.is_word("start") {
        return Transition::Refuse;
    }
    Transition::Go(State::Unit(UnitState::Started {
        version,
        line: piece.line,
    }))
}

/// After the word `start`.
fn started(alloc: Global, version: u32, line: u32, piece: &Piece) -> Result<Transition, Memory>
    ensures view { IfOk result (λ s. transition_view s ≡ M.step (M.started version line) piece.now) }
    ensures regexes { IfOk result TransitionHasRegexes }
{
    if !piece.is_unit_name() {
        return Ok(Transition::Refuse);
    }
    let start = copy(alloc, &piece.text)?;
    Ok(Transition::Go(State::Unit(UnitState::Units(Head {
        version,
        start,
        start_line: line,
        units: Vec::new(alloc),
    }))))
}

/// The sheet ends.
fn finish(head: Head) -> Transition
    requires { HaveRegexes head.units.items }
    ensures view { transition_view result ≡ M.finish (M.outline_at (head_view head)) }
    ensures regexes { TransitionHasRegexes result }
{
    Transition::Finish(Sheet {
        version: head.version,
        start: head.start,
        start_line: head.start_line,
        units: Units::from_vec(head.units),
    })
}

/// A production begins.
fn begin_production(alloc: Global, head: Head, piece: &Piece) -> Result<Transition, Memory>
    requires { HaveRegexes head.units.items }
    ensures view { IfOk result (λ s. transition_view s ≡ M.go (M.colon (head_view head) piece.now.text piece.now.line)) }
    ensures regexes { IfOk result TransitionHasRegexes }
{
    let name = copy(alloc, &piece.text)?;
    Ok(Transition::Go(State::Unit(UnitState::Colon {
        head,
        name,
        line: piece.line,
    })))
}

/// Whether the piece is the word `fence` in a sheet of version 2.
fn begins_fence(head: &Head, piece: &Piece) -> bool
    ensures { result ≡ M.begins_fence (head_view head.now) piece.now }
{
    piece.is_word("fence") && head.version == 2
}

/// At a fence or a production, or at neither.
fn after_words(alloc: Global, head: Head, piece: &Piece) -> Result<Transition, Memory>
    requires { HaveRegexes head.units.items }
    ensures view { IfOk result (λ s. transition_view s ≡ M.fence_or_production (head_view head) piece.now) }
    ensures regexes { IfOk result TransitionHasRegexes }
{
    if begins_fence(&head, piece) {
        return Ok(Transition::Go(State::Unit(UnitState::LeftFence {
            head,
            line: piece.line,
        })));
    }
    if piece.is_unit_name() {
        return begin_production(alloc, head, piece);
    }
    Ok(Transition::Refuse)
}

/// Between units.
pub fn between(alloc: Global, head: Head, piece: &Piece) -> Result<Transition, Memory>
    requires { HaveRegexes head.units.items }
    ensures view { IfOk result (λ s. transition_view s ≡ M.between (head_view head) piece.now) }
    ensures regexes { IfOk result TransitionHasRegexes }
{
    if piece.is(Kind::End) {
        return Ok(finish(head));
    }
    let line = piece.line;
    if piece.is_word("terminal") {
        return Ok(Transition::Go(State::Unit(UnitState::Named(Begun {
            head,
            terminal: true,
            line,
        }))));
    }
    if piece.is_word("ignorable") {
        return Ok(Transition::Go(State::Unit(UnitState::Named(Begun {
            head,
            terminal: false,
            line,
        }))));
    }
    after_words(alloc, head, piece)
}

/// After `terminal` or `ignorable`.
fn named(alloc: Global, begun: Begun, piece: &Piece) -> Result<Transition, Memory>
    requires { HaveRegexes begun.head.units.items }
    ensures view { IfOk result (λ s. transition_view s ≡ M.step (M.named (head_view begun.head) begun.terminal begun.line) piece.now) }
    ensures regexes { IfOk result TransitionHasRegexes }
{
    if !piece.is_unit_name() {
        return Ok(Transition::Refuse);
    }
    let name = copy(alloc, &piece.text)?;
    Ok(Transition::Go(State::Unit(UnitState::Equals(begun, name))))
}

/// After the name of a terminal or an ignorable.
fn equals(begun: Begun, name: Text, piece: &Piece) -> Transition
    requires { HaveRegexes begun.head.units.items }
    ensures view { transition_view result ≡ M.step (M.equals (head_view begun.head) begun.terminal begun.line name) piece.now }
    ensures regexes { TransitionHasRegexes result }
{
    if !piece.is(Kind::Equals) {
        return Transition::Refuse;
    }
    Transition::Go(State::Unit(UnitState::Regular(begun, name)))
}

/// After one more unit.
fn after_unit(head: Head, unit: Unit) -> Result<Transition, Memory>
    requires head { HaveRegexes head.units.items }
    requires unit { HasRegex unit }
    ensures view { IfOk result (λ s. transition_view s ≡ M.go (M.units (M.with_unit (head_view head) (unit_outline unit)))) }
    ensures regexes { IfOk result TransitionHasRegexes }
{
    let head = with_unit(head, unit)?;
    Ok(Transition::Go(State::Unit(UnitState::Units(head))))
}

/// The regular expression of a pattern that has one.
fn regex_at(alloc: Global, piece: &Piece) -> Result<Regex, Memory>
    requires { (r : Regex) × IsRegex piece.now.text r }
    ensures { IfOk result (λ r. IsRegex piece.now.text r) }
{
    let Some(regex) = regex_of(alloc, &piece.text)? else {
        unreachable!()
    };
    Ok(regex)
}

/// After a terminal's or an ignorable's pattern.
fn after_pattern(
    alloc: Global,
    begun: Begun,
    name: Text,
    regex: Regex,
    piece: &Piece,
) -> Result<Transition, Memory>
    requires head { HaveRegexes begun.head.units.items }
    requires regex { IsRegex piece.now.text regex }
    ensures view { IfOk result (λ s. transition_view s ≡ M.go (M.after_pattern (head_view begun.head) begun.terminal begun.line name piece.now)) }
    ensures regexes { IfOk result TransitionHasRegexes }
{
    let pattern = copy(alloc, &piece.text)?;
    let Begun {
        head,
        terminal,
        line,
    } = begun;
    if terminal {
        return after_unit(
            head,
            Unit::Terminal {
                name,
                pattern,
                regex,
                line,
            },
        );
    }
    Ok(Transition::Go(State::Unit(UnitState::Normal {
        head,
        line,
        name,
        pattern,
        regex,
    })))
}

/// At a terminal's or an ignorable's pattern.
fn regular(alloc: Global, begun: Begun, name: Text, piece: &Piece) -> Result<Transition, Memory>
    requires head { HaveRegexes begun.head.units.items }
    requires piece { piece.now.regular ≡ true → (r : Regex) × IsRegex piece.now.text r }
    ensures view { IfOk result (λ s. transition_view s ≡ M.step (M.regular (head_view begun.head) begun.terminal begun.line name) piece.now) }
    ensures regexes { IfOk result TransitionHasRegexes }
{
    if !piece.is(Kind::Pattern) {
        return Ok(Transition::Refuse);
    }
    if !piece.regular {
        return Ok(Transition::Refuse);
    }
    let regex = regex_at(alloc, piece)?;
    after_pattern(alloc, begun, name, regex, piece)
}

/// At an ignorable's normal spelling.
fn normal(
    alloc: Global,
    head: Head,
    line: u32,
    name: Text,
    pattern: Text,
    regex: Regex,
    piece: &Piece,
) -> Result<Transition, Memory>
    requires head { HaveRegexes head.units.items }
    requires regex { IsRegex pattern regex }
    ensures view { IfOk result (λ s. transition_view s ≡ M.step (M.normal (head_view head) line name pattern) piece.now) }
    ensures regexes { IfOk result TransitionHasRegexes }
{
    if !piece.is(Kind::Quoted) {
        return Ok(Transition::Refuse);
    }
    let normal = copy(alloc, &piece.text)?;
    let unit = Unit::Ignorable {
        name,
        pattern,
        regex,
        normal,
        line,
    };
    after_unit(head, unit)
}

/// After `fence`.
fn left_fence(alloc: Global, head: Head, line: u32, piece: &Piece) -> Result<Transition, Memory>
    requires { HaveRegexes head.units.items }
    ensures view { IfOk result (λ s. transition_view s ≡ M.step (M.left_fence (head_view head) line) piece.now) }
    ensures regexes { IfOk result TransitionHasRegexes }
{
    if !piece.is(Kind::Quoted) {
        return Ok(Transition::Refuse);
    }
    let left = copy(alloc, &piece.text)?;
    Ok(Transition::Go(State::Unit(UnitState::RightFence { head, line, left })))
}

/// After a fence's first text.
fn right_fence(
    alloc: Global,
    head: Head,
    line: u32,
    left: Text,
    piece: &Piece,
) -> Result<Transition, Memory>
    requires { HaveRegexes head.units.items }
    ensures view { IfOk result (λ s. transition_view s ≡ M.step (M.right_fence (head_view head) line left) piece.now) }
    ensures regexes { IfOk result TransitionHasRegexes }
{
    if !piece.is(Kind::Quoted) {
        return Ok(Transition::Refuse);
    }
    let right = copy(alloc, &piece.text)?;
    let unit = Unit::Fence { left, right, line };
    after_unit(head, unit)
}

/// After a production's name.
fn colon(alloc: Global, head: Head, name: Text, line: u32, piece: &Piece) -> Transition
    requires { HaveRegexes head.units.items }
    ensures view { transition_view result ≡ M.step (M.colon (head_view head) name line) piece.now }
    ensures regexes { TransitionHasRegexes result }
{
    if !piece.is(Kind::Colon) {
        return Transition::Refuse;
    }
    Transition::Go(State::Item(ItemState::At(Site::LeftSide(Draft {
        head,
        name,
        line,
        left: Vec::new(alloc),
    }))))
}

/// Where one more piece leads outside the sides of a production.
pub fn step_unit(alloc: Global, state: UnitState, piece: &Piece) -> Result<Transition, Memory>
    requires state { UnitHasRegexes state }
    requires piece { piece.now.regular ≡ true → (r : Regex) × IsRegex piece.now.text r }
    ensures view { IfOk result (λ s. transition_view s ≡ M.step (unit_view state) piece.now) }
    ensures regexes { IfOk result TransitionHasRegexes }
{
    match state {
        UnitState::Begin => Ok(begin(piece)),
        UnitState::Versioned(version) => Ok(versioned(version, piece)),
        UnitState::Started { version, line } => started(alloc, version, line, piece),
        UnitState::Units(head) => between(alloc, head, piece),
        UnitState::Named(begun) => named(alloc, begun, piece),
        UnitState::Equals(begun, name) => Ok(equals(begun, name, piece)),
        UnitState::Regular(begun, name) => regular(alloc, begun, name, piece),
        UnitState::Normal {
            head,
            line,
            name,
            pattern,
            regex,
        } => normal(alloc, head, line, name, pattern, regex, piece),
        UnitState::LeftFence { head, line } => left_fence(alloc, head, line, piece),
        UnitState::RightFence { head, line, left } => right_fence(alloc, head, line, left, piece),
        UnitState::Colon { head, name, line } => Ok(colon(alloc, head, name, line, piece)),
    }
}
