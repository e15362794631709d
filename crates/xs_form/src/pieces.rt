ghost use Rattle.std.specs.Prelude.{◌≡◌, ◌||◌, codes, length, map, IfOk};
ghost use Rattle.std.specs.Option.{option_map};
ghost use Rattle.xs_xml_laws.specs.{same, is_apart, char_at, reference_at, end_at, in_cdata, in_comment, bang_at, attrs_at, tag_at, declaration_attrs, instruction_at, markup_at, piece_at};
ghost use Rattle.xs_form.specs.Attributes.{shown};
ghost use Rattle.xs_form.specs.Seen.{found, shown_found, shown_end, tag_ends, past_feed, held_version, held_encoding, held_standalone, held_settings, instruction_body};

use crate::attribute::Attribute;
use crate::attributes::attributes_at;
use crate::references::reference_char;
use crate::runs::{
    after_prefix, all_allowed, allowed, cut_at, is, is_name_text, name_run, spells,
    spells_in_any_case, white, white_run,
};
use crate::sorted::{Ordered, in_order};
use std::alloc::Global;
use xs_class::{Memory, Sym};

/// What a piece says: a CR or CR LF is the character LF, a comment or instruction says nothing.
#[derive(Drop)]
pub enum Event<'a> {
    Declaration,
    Character(u32),
    Reference(u32),
    Start {
        name: &'a [Sym],
        attributes: Ordered<'a>,
    },
    Empty {
        name: &'a [Sym],
        attributes: Ordered<'a>,
    },
    End(&'a [Sym]),
    Aside,
    Section(&'a [Sym]),
}

#[derive(Clone, Copy)]
pub struct TagEnd<'a> {
    pub empty: bool,
    pub rest: &'a [Sym],
}

/// What stands after the line end whose CR stands before the text.
fn past_feed(text: &[Sym]) -> &[Sym]
    ensures { result.now ≡ past_feed text.now }
{
    match text {
        [] => text,
        [first, rest @ ..] => { if first.number() == 10 { rest } else { text } }
    }
}

/// A character that stands for itself, or a line end.
fn character(first: Sym, rest: &[Sym]) -> Option<(Event<'_>, &[Sym])>
    ensures { option_map shown_found result ≡ option_map found (char_at first rest.now) }
{
    let number = first.number();
    if number == 13 {
        return Some((Event::Character(10), past_feed(rest)));
    }
    if number == 60 || number == 38 || !allowed(number) {
        return None;
    }
    Some((Event::Character(number), rest))
}

/// A reference, after its `&`.
fn reference(text: &[Sym]) -> Option<(Event<'_>, &[Sym])>
    ensures { option_map shown_found result ≡ option_map found (reference_at text.now) }
{
    let (name, rest) = cut_at(text, b";")?;
    let number = reference_char(name)?;
    Some((Event::Reference(number), rest))
}

/// An end tag, after its `</`.
fn end_tag(text: &[Sym]) -> Option<(Event<'_>, &[Sym])>
    ensures { option_map shown_found result ≡ option_map found (end_at text.now) }
{
    let (name, more) = name_run(text);
    let (_, more) = white_run(more);
    let rest = after_prefix(more, b">")?;
    if !is_name_text(name) {
        return None;
    }
    Some((Event::End(name), rest))
}

/// A comment, after its `<!--`.
fn comment(text: &[Sym]) -> Option<(Event<'_>, &[Sym])>
    ensures { option_map shown_found result ≡ option_map found (in_comment text.now) }
{
    let (body, closing) = cut_at(text, b"--")?;
    let rest = after_prefix(closing, b">")?;
    if !all_allowed(body) {
        return None;
    }
    Some((Event::Aside, rest))
}

/// A CDATA section, after its `<![CDATA[`.
fn section(text: &[Sym]) -> Option<(Event<'_>, &[Sym])>
    ensures { option_map shown_found result ≡ option_map found (in_cdata text.now) }
{
    let (body, rest) = cut_at(text, b"]]>")?;
    if !all_allowed(body) {
        return None;
    }
    Some((Event::Section(body), rest))
}

/// A comment or a CDATA section, after its <!.
fn marked(text: &[Sym]) -> Option<(Event<'_>, &[Sym])>
    ensures { option_map shown_found result ≡ option_map found (bang_at text.now) }
{
    match text {
        [] => None,
        [first, more @ ..] => {
            if is(*first, b'-') {
                return comment(after_prefix(more, b"-")?);
            }
            section(after_prefix(text, b"[CDATA[")?)
        }
    }
}

/// The end of a start tag or of an empty tag.
fn tag_end(text: &[Sym]) -> Option<TagEnd<'_>>
    ensures { option_map shown_end result ≡ tag_ends text.now }
{
    match text {
        [] => None,
        [first, more @ ..] => {
            if is(*first, b'>') {
                return Some(TagEnd {
                    empty: false,
                    rest: more,
                });
            }
            let rest = after_prefix(text, b"/>")?;
            Some(TagEnd { empty: true, rest })
        }
    }
}

/// A start tag or an empty tag, after its <.
fn tag(alloc: Global, text: &[Sym]) -> Result<Option<(Event<'_>, &[Sym])>, Memory>
    ensures { IfOk result (λ o. option_map shown_found o ≡ option_map found (tag_at text.now)) }
{
    let (name, more) = name_run(text);
    if !is_name_text(name) {
        return Ok(None);
    }
    let (list, more) = attributes_at(alloc, more)?;
    let (_, more) = white_run(more);
    let Some(end) = tag_end(more) else {
        return Ok(None);
    };
    match in_order(alloc, list)? {
        None => Ok(None),
        Some(attributes) => {
            if end.empty {
                return Ok(Some((Event::Empty { name, attributes }, end.rest)));
            }
            Ok(Some((Event::Start { name, attributes }, end.rest)))
        }
    }
}

/// Whether the setting is version 1.0.
fn is_version(setting: &Attribute<'_>) -> bool
    ensures { result ≡ held_version (shown setting.now) }
{
    spells(setting.name, b"version")
        && setting.value.is_written()
        && spells(setting.value.as_slice(), b"1.0")
}

/// Whether the setting is the encoding UTF-8.
fn is_encoding(setting: &Attribute<'_>) -> bool
    ensures { result ≡ held_encoding (shown setting.now) }
{
    spells(setting.name, b"encoding")
        && setting.value.is_written()
        && spells_in_any_case(setting.value.as_slice(), b"utf-8")
}

/// Whether the setting is a standalone declaration.
fn is_standalone(setting: &Attribute<'_>) -> bool
    ensures { result ≡ held_standalone (shown setting.now) }
{
    spells(setting.name, b"standalone")
        && setting.value.is_written()
        && says_yes_or_no(setting.value.as_slice())
}

/// Whether the value is `yes` or `no`.
fn says_yes_or_no(value: &[Sym]) -> bool
    ensures { result ≡ (same value.now (codes "yes") || same value.now (codes "no")) }
{
    spells(value, b"yes") || spells(value, b"no")
}

/// Whether these are the settings of a declaration, in their order.
fn are_settings(settings: &[Attribute<'_>]) -> bool
    ensures { result ≡ held_settings (map shown settings.now) }
{
    match settings {
        [version] => is_version(version),
        [version, other] => is_version(version) && (is_encoding(other) || is_standalone(other)),
        [version, encoding, standalone] => is_version(version)
            && is_encoding(encoding)
            && is_standalone(standalone),
        _ => false,
    }
}

/// A declaration, after its <?xml.
fn declaration(alloc: Global, text: &[Sym]) -> Result<Option<(Event<'_>, &[Sym])>, Memory>
    ensures { IfOk result (λ o. option_map shown_found o ≡ option_map found (declaration_attrs (attrs_at (length text.now) text.now))) }
{
    let (list, more) = attributes_at(alloc, text)?;
    let (_, more) = white_run(more);
    let Some(rest) = after_prefix(more, b"?>") else {
        return Ok(None);
    };
    if !are_settings(&list) {
        return Ok(None);
    }
    Ok(Some((Event::Declaration, rest)))
}

/// An instruction, after its name.
fn instruction<'a>(target: &[Sym], text: &'a [Sym]) -> Option<(Event<'a>, &'a [Sym])>
    ensures { option_map shown_found result ≡ option_map found (instruction_body target.now text.now) }
{
    let (body, rest) = cut_at(text, b"?>")?;
    if !is_name_text(target)
        || spells_in_any_case(target, b"xml")
        || !is_apart_text(body)
        || !all_allowed(body)
    {
        return None;
    }
    Some((Event::Aside, rest))
}

/// Nothing, or what begins with white space.
fn is_apart_text(text: &[Sym]) -> bool
    ensures { result ≡ is_apart text.now }
{
    match text {
        [] => true,
        [first, ..] => white(*first),
    }
}

/// An instruction or a declaration, after its <?.
fn asked(alloc: Global, text: &[Sym]) -> Result<Option<(Event<'_>, &[Sym])>, Memory>
    ensures { IfOk result (λ o. option_map shown_found o ≡ option_map found (instruction_at text.now)) }
{
    let (target, more) = name_run(text);
    if spells(target, b"xml") {
        return declaration(alloc, more);
    }
    Ok(instruction(target, more))
}

/// What stands after a <.
fn markup(alloc: Global, text: &[Sym]) -> Result<Option<(Event<'_>, &[Sym])>, Memory>
    ensures { IfOk result (λ o. option_map shown_found o ≡ option_map found (markup_at text.now)) }
{
    match text {
        [] => Ok(None),
        [first, more @ ..] => {
            if is(*first, b'/') {
                return Ok(end_tag(more));
            }
            if is(*first, b'!') {
                return Ok(marked(more));
            }
            if is(*first, b'?') {
                return asked(alloc, more);
            }
            tag(alloc, text)
        }
    }
}

/// What the piece that the text begins with says, and the rest.
#[tactic(auto, unfolding(xs_xml_laws::specs::Scan::piece_at))]
pub fn event_at(alloc: Global, text: &[Sym]) -> Result<Option<(Event<'_>, &[Sym])>, Memory>
    ensures { IfOk result (λ o. option_map shown_found o ≡ option_map found (piece_at text.now)) }
{
    match text {
        [] => Ok(None),
        [first, more @ ..] => {
            if is(*first, b'<') {
                return markup(alloc, more);
            }
            if is(*first, b'&') {
                return Ok(reference(more));
            }
            Ok(character(*first, more))
        }
    }
}
