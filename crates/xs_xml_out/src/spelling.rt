ghost use Rattle.std.specs.Prelude.{◌≡◌, [], ◌++◌, ◌<◌, length, OnOk, encode_utf8, encode_utf8_all, string_bytes};
ghost use Rattle.xs_xml_out.specs.Written.{put, content_char, value_char};
ghost use Rattle.xs_xml_out.specs.Spelling.{IsKnown, IsShort, body_bytes};

use crate::kind::SymbolKind;
use crate::mode::Mode;
use crate::tags::Tags;
use xs_class::Memory;

/// What is written for a character.
#[derive(Clone, Copy)]
pub enum Body {
    Single(char),
    Text(&'static str),
}

/// Appends a text.
#[inline(always)]
pub fn put_text(out: &mut String, text: &str) -> Result<(), Memory>
    ensures { OnOk result (string_bytes out.new ≡ string_bytes out.old ++ text.now) }
{
    out.push_str(text)?;
    Ok(())
}

/// Appends a character.
#[inline(always)]
fn put_char(out: &mut String, c: char) -> Result<(), Memory>
    ensures { OnOk result (string_bytes out.new ≡ string_bytes out.old ++ encode_utf8 c) }
{
    out.push(c)?;
    Ok(())
}

/// Appends what is written for a character.
#[inline(always)]
fn put_body(out: &mut String, body: Body) -> Result<(), Memory>
    ensures { OnOk result (string_bytes out.new ≡ string_bytes out.old ++ body_bytes body) }
{
    match body {
        Body::Single(c) => put_char(out, c)?,
        Body::Text(text) => put_text(out, text)?,
    }
    Ok(())
}

/// A character of content.
#[inline(always)]
pub fn content_char(c: char) -> Body
    ensures written { body_bytes result ≡ encode_utf8_all (content_char c) }
    ensures short { IsShort result }
{
    match c {
        '&' => Body::Text("&amp;"),
        '<' => Body::Text("&lt;"),
        '>' => Body::Text("&gt;"),
        '\r' => Body::Text("&#xD;"),
        _ => Body::Single(c),
    }
}

/// A character of an attribute's value.
#[inline(always)]
pub fn value_char(c: char) -> Body
    ensures written { body_bytes result ≡ encode_utf8_all (value_char c) }
    ensures short { IsShort result }
{
    let text = match c {
        '"' => "&quot;",
        '\t' => "&#x9;",
        '\n' => "&#xA;",
        _ => return content_char(c),
    };
    Body::Text(text)
}

/// Appends what is written for a character.
#[inline(always)]
fn put_symbol_char(out: &mut String, mode: Mode, c: char) -> Result<(), Memory>
    ensures { OnOk result (string_bytes out.new ≡ string_bytes out.old ++ encode_utf8_all (put [] mode (SymbolKind.Char c))) }
{
    match mode {
        Mode::Content => put_body(out, content_char(c))?,
        Mode::Tag => {
            put_text(out, ">")?;
            put_body(out, content_char(c))?;
        }
        Mode::Value => put_body(out, value_char(c))?,
    }
    Ok(())
}

/// Appends what is written for the opening of an element.
fn put_opening(out: &mut String, tags: &Tags, mode: Mode, k: u32) -> Result<(), Memory>
    requires { k < length tags.now }
    ensures { OnOk result (string_bytes out.new ≡ string_bytes out.old ++ encode_utf8_all (put tags.now mode (SymbolKind.Opening k))) }
{
    match mode {
        Mode::Content => put_text(out, tags.opening(k)),
        Mode::Tag => put_text(out, tags.nested(k)),
        Mode::Value => Ok(()),
    }
}

/// Appends what is written for the beginning of an attribute.
fn put_attribute(out: &mut String, tags: &Tags, mode: Mode, k: u32) -> Result<(), Memory>
    requires { k < length tags.now }
    ensures { OnOk result (string_bytes out.new ≡ string_bytes out.old ++ encode_utf8_all (put tags.now mode (SymbolKind.Attribute k))) }
{
    match mode {
        Mode::Tag => put_text(out, tags.attribute(k)),
        Mode::Content | Mode::Value => Ok(()),
    }
}

/// Appends what is written for the closing of an element.
fn put_closing(out: &mut String, tags: &Tags, mode: Mode, k: u32) -> Result<(), Memory>
    requires { k < length tags.now }
    ensures { OnOk result (string_bytes out.new ≡ string_bytes out.old ++ encode_utf8_all (put tags.now mode (SymbolKind.Closing k))) }
{
    match mode {
        Mode::Content => put_text(out, tags.closing(k)),
        Mode::Tag => put_text(out, "/>"),
        Mode::Value => Ok(()),
    }
}

/// Appends what is written for the end of a value.
fn put_value_end(out: &mut String, mode: Mode) -> Result<(), Memory>
    ensures { OnOk result (string_bytes out.new ≡ string_bytes out.old ++ encode_utf8_all (put [] mode SymbolKind.ValueEnd)) }
{
    match mode {
        Mode::Value => put_text(out, "\""),
        Mode::Content | Mode::Tag => Ok(()),
    }
}

/// Appends what is written for a symbol.
#[inline(always)]
pub fn put_symbol(out: &mut String, tags: &Tags, mode: Mode, kind: SymbolKind) -> Result<(), Memory>
    requires { IsKnown tags.now kind }
    ensures { OnOk result (string_bytes out.new ≡ string_bytes out.old ++ encode_utf8_all (put tags.now mode kind)) }
{
    match kind {
        SymbolKind::Char(code) => put_symbol_char(out, mode, char::from_u32(code).unwrap()),
        SymbolKind::Opening(k) => put_opening(out, tags, mode, k),
        SymbolKind::Attribute(k) => put_attribute(out, tags, mode, k),
        SymbolKind::Closing(k) => put_closing(out, tags, mode, k),
        SymbolKind::ValueEnd => put_value_end(out, mode),
        SymbolKind::Strange => Ok(()),
    }
}
