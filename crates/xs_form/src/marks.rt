ghost use Rattle.std.specs.Prelude.{◌≡◌, ◌<◌, true, ◌++◌, IsTrue, IfOk, IfSome, OnOk, encode_utf8, encode_utf8_all};
ghost use Rattle.std.specs.Char.{IsScalar};
ghost use Rattle.std.specs.Str.{chars};
ghost use Rattle.std.specs.String.{string_bytes};
ghost use Rattle.xs_xml_laws.specs.{is_name_char};
ghost use Rattle.xs_class.specs.{place_of};
ghost use Rattle.xs_xml_laws.specs.{all_of, is_name, marked};
ghost use Rattle.xs_form.specs.Marks.{numbered};

use std::alloc::Global;
use xs_class::{Memory, Names, STRANGE, Sym};

/// The marks of a name: where an element opens, where an attribute begins, where an element closes.
#[derive(Clone, Copy)]
pub enum Mark {
    Opening,
    Attribute,
    Closing,
}

/// Appends a character.
fn push_scalar(text: &mut String, symbol: Sym) -> Result<(), Memory>
    requires { IsScalar symbol }
    ensures { OnOk result (string_bytes text.new ≡ string_bytes text.old ++ encode_utf8 symbol) }
{
    if let Some(c) = char::from_u32(symbol.number()) {
        text.push(c)?;
    }
    Ok(())
}

/// The UTF-8 of a name.
pub fn spelled(alloc: Global, name: &[Sym]) -> Result<String, Memory>
    requires { all_of is_name_char name.now ≡ true }
    ensures { IfOk result (λ s. string_bytes s ≡ encode_utf8_all name.now) }
{
    let mut text = String::new(alloc);
    'symbols: for symbol in name {
        push_scalar(&mut text, *symbol)?;
    }
    Ok(text)
}

/// Whether the text is this name in ASCII. A name with other characters is not looked at.
fn is_ascii_name(name: &[Sym], text: &str) -> bool
    ensures { IsTrue result → text.now ≡ encode_utf8_all name.now }
{
    let mut rest = text.as_bytes();
    'symbols: for symbol in name {
        match rest {
            [] => return false,
            [first, others @ ..] => {
                if *first >= 128 || symbol.number() != u32::from(*first) {
                    return false;
                }
                rest = others;
            }
        }
    }
    rest.is_empty()
}

/// The place of the name that is this text.
pub fn place_of_text(names: &Names, text: &str) -> Option<u32>
    ensures value { result ≡ place_of names.now (chars text.now) }
    ensures few { IfSome result (λ k. k < 65536) }
{
    match names.place(text) {
        Some(k) if k < names.len() => Some(k),
        _ => None,
    }
}

/// The place of the name in the list, by its UTF-8.
fn looked_up(alloc: Global, names: &Names, name: &[Sym]) -> Result<Option<u32>, Memory>
    requires { is_name name.now ≡ true }
    ensures value { IfOk result (λ o. o ≡ place_of names.now name.now) }
    ensures few { IfOk result (λ o. IfSome o (λ k. k < 65536)) }
{
    let text = spelled(alloc, name)?;
    Ok(place_of_text(names, text.as_str()))
}

/// How many places are kept.
const KEPT: usize = 64;

/// A number below `KEPT` that is made of the name.
fn slot_of(name: &[Sym]) -> usize {
    match name {
        [] => 0,
        [first, rest @ ..] => {
            let last = match rest {
                [] => 0,
                [.., last] => last.number(),
            };
            let ends = first.number().wrapping_add(last.wrapping_mul(5));
            (ends as usize).wrapping_add(rest.len().wrapping_mul(11)) % KEPT
        }
    }
}

/// Places of names that were looked up before. Each is a guess, which is compared with the name
/// before it is used.
#[derive(Drop)]
pub struct Guesses {
    places: Vec<u32>,
}

impl Guesses {
    /// Guesses of the first name alone.
    pub fn new(alloc: Global) -> Result<Self, Memory> {
        let mut places = Vec::with_capacity(alloc, KEPT)?;
        'places: for _place in 0..KEPT {
            places.push(0)?;
        }
        Ok(Guesses { places })
    }

    /// The place of the name in the list. A name that was looked up before needs no memory.
    pub fn place(
        &mut self,
        alloc: Global,
        names: &Names,
        name: &[Sym],
    ) -> Result<Option<u32>, Memory>
        requires { is_name name.now ≡ true }
        ensures value { IfOk result (λ o. o ≡ place_of names.now name.now) }
        ensures few { IfOk result (λ o. IfSome o (λ k. k < 65536)) }
    {
        let slot = slot_of(name);
        if let Some(guess) = self.places.get(slot) {
            let guess = *guess;
            if guess < names.len() && is_ascii_name(name, names.name(guess)) {
                return Ok(Some(guess));
            }
        }
        let place = looked_up(alloc, names, name)?;
        if let Some(kept) = self.places.get_mut(slot) {
            *kept = place.unwrap_or(0);
        }
        Ok(place)
    }
}

/// A mark of the name at this place.
pub fn mark_of(mark: Mark, place: Option<u32>) -> Sym
    requires { IfSome place (λ k. k < 65536) }
    ensures { result ≡ marked (numbered mark) place }
{
    let Some(k) = place else {
        return STRANGE;
    };
    match mark {
        Mark::Opening => Sym::opening(k),
        Mark::Attribute => Sym::attribute(k),
        Mark::Closing => Sym::closing(k),
    }
}
