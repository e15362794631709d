ghost use Rattle.std.specs.Prelude.{◌≡◌, true, [], ◌∷◌, ◌++◌, nat_lt, codes, IfOk, OnOk, map};
ghost use Rattle.std.specs.List.{list_all};
ghost use Rattle.xs_lex.specs.declared.kind.Kind.TheVariants.{Colon, Equals, Angle, AngleSlash, AngleEnd};
ghost use Rattle.xs_sheet.specs.Outline.{nothing, with_item, content_of, unit_outline};
ghost use Rattle.xs_sheet.specs.Layout.{quoted, as_is, in_quotes, in_slashes, sign, item_words, items_words, attr_words, attrs_words, content_words, unit_words, spaced, line_text, lines_text, sheet_bytes};
ghost use Rattle.xs_sheet.specs.Grammar.{version_word};
ghost use Rattle.xs_sheet.specs.Lines.{IsReadable, IsReadAgain};

use crate::quoting::push_quoted;
use crate::{Attr, Item, Sheet, Unit, XItem};
use std::alloc::Global;
use xs_class::{Bytes, Memory, Text};

/// Writes a space and ASCII characters.
fn push_word(page: &mut Text, word: &str) -> Result<(), Memory>
    requires { list_all (λ b. nat_lt b 128) word.now ≡ true }
    ensures { OnOk result (page.new ≡ page.old ++ 32 ∷ word.now) }
{
    page.push(' ')?;
    page.push_ascii(word)
}

/// Writes a space and a name.
fn push_name(page: &mut Text, name: &Text) -> Result<(), Memory>
    ensures { OnOk result (page.new ≡ page.old ++ 32 ∷ name.now) }
{
    page.push(' ')?;
    page.push_text(name)
}

/// Writes a space and a quoted string.
fn push_string(page: &mut Text, text: &Text) -> Result<(), Memory>
    ensures { OnOk result (page.new ≡ page.old ++ 32 ∷ quoted text.now) }
{
    page.push(' ')?;
    push_quoted(page, text)
}

fn push_item(page: &mut Text, item: &Item) -> Result<(), Memory>
    ensures { OnOk result (page.new ≡ page.old ++ spaced (item_words item.now)) }
{
    match item {
        Item::Fixed(text) => push_string(page, text),
        Item::Named { name, slot } => {
            push_word(page, "[")?;
            push_name(page, name)?;
            push_name(page, slot)?;
            push_word(page, "]")
        }
        Item::Skip { name } => {
            push_word(page, "[")?;
            push_name(page, name)?;
            push_word(page, "]")
        }
    }
}

fn push_items(page: &mut Text, items: &[Item]) -> Result<(), Memory>
    ensures { OnOk result (page.new ≡ page.old ++ spaced (items_words items.now)) }
{
    'items: for item in items {
        push_item(page, item)?;
    }
    Ok(())
}

fn push_attr(page: &mut Text, attr: &Attr) -> Result<(), Memory>
    ensures { OnOk result (page.new ≡ page.old ++ spaced (attr_words attr.now)) }
{
    push_name(page, &attr.name)?;
    push_word(page, "=")?;
    push_items(page, attr.value.as_slice())
}

fn push_attrs(page: &mut Text, attrs: &[Attr]) -> Result<(), Memory>
    ensures { OnOk result (page.new ≡ page.old ++ spaced (attrs_words attrs.now)) }
{
    'attrs: for attr in attrs {
        push_attr(page, attr)?;
    }
    Ok(())
}

/// Writes an element's first tag but for its end.
fn push_tag(page: &mut Text, tag: &Text, attrs: &[Attr]) -> Result<(), Memory>
    ensures { OnOk result (page.new ≡ page.old ++ spaced (sign Angle ∷ as_is tag.now ∷ attrs_words attrs.now)) }
{
    push_word(page, "<")?;
    push_name(page, tag)?;
    push_attrs(page, attrs)
}

/// Writes the tag that closes an element.
fn push_end_tag(page: &mut Text, tag: &Text) -> Result<(), Memory>
    ensures { OnOk result (page.new ≡ page.old ++ spaced (sign AngleSlash ∷ as_is tag.now ∷ sign AngleEnd ∷ [])) }
{
    push_word(page, "</")?;
    push_name(page, tag)?;
    push_word(page, ">")
}

/// Writes an item of an XML side; elements stand at most 64 deep in each other.
fn push_x_item(page: &mut Text, item: &XItem) -> Result<(), Memory>
    ensures { OnOk result (page.new ≡ page.old ++ spaced (content_words (with_item item.now nothing))) }
{
    match item {
        XItem::Plain(item) => push_item(page, item),
        XItem::Element {
            tag,
            attrs,
            content,
        } => {
            push_tag(page, tag, attrs.as_slice())?;
            if content.is_empty() {
                return push_word(page, "/>");
            }
            push_word(page, ">")?;
            'children: for child in content.as_slice() {
                push_x_item(page, child)?;
            }
            push_end_tag(page, tag)
        }
    }
}

fn push_content(page: &mut Text, items: &[XItem]) -> Result<(), Memory>
    ensures { OnOk result (page.new ≡ page.old ++ spaced (content_words (content_of items.now))) }
{
    'items: for item in items {
        push_x_item(page, item)?;
    }
    Ok(())
}

/// Writes what a terminal and an ignorable have alike.
fn push_regular(page: &mut Text, word: &str, name: &Text, pattern: &Text) -> Result<(), Memory>
    requires { list_all (λ b. nat_lt b 128) word.now ≡ true }
    ensures { OnOk result (page.new ≡ page.old ++ word.now ++ spaced (as_is name.now ∷ sign Equals ∷ in_slashes pattern.now ∷ [])) }
{
    page.push_ascii(word)?;
    push_name(page, name)?;
    push_word(page, "=")?;
    push_word(page, "/")?;
    page.push_text(pattern)?;
    page.push('/')
}

fn push_production(
    page: &mut Text,
    name: &Text,
    left: &[Item],
    right: &[XItem],
) -> Result<(), Memory>
    ensures { OnOk result (page.new ≡ page.old ++ name.now ++ spaced (sign Colon ∷ (items_words left.now ++ sign Equals ∷ content_words (content_of right.now)))) }
{
    page.push_text(name)?;
    push_word(page, ":")?;
    push_items(page, left)?;
    push_word(page, "=")?;
    push_content(page, right)
}

fn push_fence(page: &mut Text, left: &Text, right: &Text) -> Result<(), Memory>
    ensures { OnOk result (page.new ≡ page.old ++ codes "fence" ++ spaced (in_quotes left.now ∷ in_quotes right.now ∷ [])) }
{
    page.push_ascii("fence")?;
    push_string(page, left)?;
    push_string(page, right)
}

/// Writes a unit on a line of its own.
fn push_unit(page: &mut Text, unit: &Unit) -> Result<(), Memory>
    ensures { OnOk result (page.new ≡ page.old ++ line_text (unit_words (unit_outline unit.now))) }
{
    match unit {
        Unit::Terminal {
            name,
            pattern,
            regex: _,
            line: _,
        } => push_regular(page, "terminal", name, pattern)?,
        Unit::Ignorable {
            name,
            pattern,
            regex: _,
            normal,
            line: _,
        } => {
            push_regular(page, "ignorable", name, pattern)?;
            push_string(page, normal)?;
        }
        Unit::Production {
            name,
            left,
            right,
            line: _,
        } => push_production(page, name, left.as_slice(), right.as_slice())?,
        Unit::Fence {
            left,
            right,
            line: _,
        } => push_fence(page, left, right)?,
    }
    page.push('\n')
}

fn push_version(page: &mut Text, version: u32) -> Result<(), Memory>
    ensures { OnOk result (page.new ≡ page.old ++ version_word version) }
{
    if version == 2 {
        page.push_ascii("xsugar-2")
    } else {
        page.push_ascii("xsugar-1")
    }
}

/// Writes the version word and the start, on a line each.
fn push_head(page: &mut Text, version: u32, start: &Text) -> Result<(), Memory>
    ensures { OnOk result (page.new ≡ page.old ++ version_word version ++ codes "\nstart " ++ start.now ++ 10 ∷ []) }
{
    push_version(page, version)?;
    page.push_ascii("\nstart ")?;
    page.push_text(start)?;
    page.push('\n')
}

fn push_units(page: &mut Text, units: &[Unit]) -> Result<(), Memory>
    ensures { OnOk result (page.new ≡ page.old ++ lines_text (map (λ u. unit_words (unit_outline u)) units.now)) }
{
    'units: for unit in units {
        push_unit(page, unit)?;
    }
    Ok(())
}

/// The bytes of a sheet, in the one layout that this crate writes.
///
/// The version word stands on line 1, `start` and the name on line 2, and each unit on a line of
/// its own. One space parts two tokens of a line, and each line ends with LF. An element without
/// content is one tag. The bytes spell the same sheet but for the lines of its units, also where
/// they are more than a sheet that is read may have. The time is linear in the bytes.
pub fn write_sheet(alloc: Global, sheet: &Sheet) -> Result<Bytes, Memory>
    requires { IsReadable sheet.now }
    ensures layout { IfOk result (λ b. b ≡ sheet_bytes sheet.now) }
    ensures read_again { IfOk result (λ b. IsReadAgain b sheet.now) }
{
    let mut page = Text::new(alloc);
    push_head(&mut page, sheet.version, &sheet.start)?;
    push_units(&mut page, sheet.units.as_slice())?;
    Ok(Bytes::from_vec(page.into_bytes()))
}
