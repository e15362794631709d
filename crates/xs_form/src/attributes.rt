ghost use Rattle.std.specs.Prelude.{◌≡◌, ◌∷◌, [], IfOk};
ghost use Rattle.std.specs.Option.{option_map, option_copied};
ghost use Rattle.xs_xml_laws.specs.{after, attr_at};
ghost use Rattle.xs_form.specs.Attributes.{head_at, shown_head, kept_attribute, shown_attribute, AreAttributes};

use crate::attribute::Attribute;
use crate::runs::{after_prefix, is_name_text, name_run, quotes, white_run};
use crate::values::value_at;
use std::alloc::Global;
use xs_class::{Memory, Sym};

/// The name of an attribute, the quote that its value stands between, and the text from there on.
#[derive(Clone, Copy)]
struct Head<'a> {
    name: &'a [Sym],
    quote: Sym,
    rest: &'a [Sym],
}

/// The head of the attribute that the text begins with.
fn head_of(text: &[Sym]) -> Option<Head<'_>>
    ensures { option_map shown_head result ≡ head_at text.now }
{
    let (gap, more) = white_run(text);
    let (name, more) = name_run(more);
    let (_, more) = white_run(more);
    let more = after_prefix(more, b"=")?;
    let (_, more) = white_run(more);
    match more {
        [] => None,
        [quote, rest @ ..] => {
            if gap.is_empty() || !is_name_text(name) || !quotes(*quote) {
                return None;
            }
            Some(Head {
                name,
                quote: *quote,
                rest,
            })
        }
    }
}

/// What stands after the quote, where the text begins with it.
fn after_quote(quote: Sym, text: &[Sym]) -> Option<&[Sym]>
    ensures { option_copied result ≡ after (quote ∷ []) text.now }
{
    match text {
        [] => None,
        [first, rest @ ..] => {
            if first.number() == quote.number() {
                Some(rest)
            } else {
                None
            }
        }
    }
}

/// The attribute that the text begins with, from the white space before its name on, and the rest.
pub fn attribute_at(alloc: Global, text: &[Sym]) -> Result<Option<(Attribute<'_>, &[Sym])>, Memory>
    ensures { IfOk result (λ o. option_map shown_attribute o ≡ option_map kept_attribute (attr_at text.now)) }
{
    let Some(head) = head_of(text) else {
        return Ok(None);
    };
    let (value, more) = value_at(alloc, head.quote, head.rest)?;
    match after_quote(head.quote, more) {
        None => Ok(None),
        Some(rest) => Ok(Some((
            Attribute {
                name: head.name,
                value,
            },
            rest,
        ))),
    }
}

/// The attributes that the text begins with, as many as there are, and the rest.
pub fn attributes_at(alloc: Global, text: &[Sym]) -> Result<(Vec<Attribute<'_>>, &[Sym]), Memory>
    ensures { IfOk result (λ r. AreAttributes text.now r.0.items r.1.now) }
{
    let mut attributes = Vec::new(alloc);
    let mut rest = text;
    'attributes: while let Some((attribute, more)) = attribute_at(alloc, rest)? {
        attributes.push(attribute)?;
        rest = more;
    }
    Ok((attributes, rest))
}
