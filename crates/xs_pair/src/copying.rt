ghost use Rattle.std.specs.Prelude.{◌≡◌, IfOk};
ghost use Rattle.xs_regex.specs.{IsPatternOf};
ghost use Rattle.xs_sheet.specs.{HasRegex, HaveRegexes, Content, with_item, content_of, unit_outline, terminal, ignorable, production, fence};
ghost use Rattle.xs_pair.specs.Upgrades.{AreCopies};

use crate::flat::{copied, copied_attr, copied_items};
use crate::regex::copied_regex;
use std::alloc::Global;
use xs_class::{Memory, Text};
use xs_regex::Regex;
use xs_sheet::{Attr, Attrs, Item, Unit, XItem, XItems};

fn copied_attrs(alloc: Global, attrs: &[Attr]) -> Result<Attrs, Memory>
    ensures { IfOk result (λ as_. as_ ≡ attrs.now) }
{
    let mut all = Vec::with_capacity(alloc, attrs.len())?;
    'attrs: for attr in attrs {
        let attr = copied_attr(alloc, attr)?;
        all.push(attr)?;
    }
    Ok(Attrs::from_vec(all))
}

/// The same item of an XML side once more. The depth of the recursion is that of the elements.
fn copied_x_item(alloc: Global, item: &XItem) -> Result<XItem, Memory>
    ensures { IfOk result (λ i. (before : Content) → with_item i before ≡ with_item item.now before) }
{
    match item {
        XItem::Plain(item) => {
            let item = copied(item)?;
            Ok(XItem::Plain(item))
        }
        XItem::Element {
            tag,
            attrs,
            content,
        } => {
            let tag = tag.copy()?;
            let attrs = copied_attrs(alloc, attrs.as_slice())?;
            let mut inside = XItems::new(alloc);
            'children: for child in content.as_slice() {
                let child = copied_x_item(alloc, child)?;
                inside.push(child)?;
            }
            Ok(XItem::Element {
                tag,
                attrs,
                content: inside,
            })
        }
    }
}

fn copied_content(alloc: Global, items: &[XItem]) -> Result<XItems, Memory>
    ensures { IfOk result (λ is. content_of is ≡ content_of items.now) }
{
    let mut content = XItems::new(alloc);
    'items: for item in items {
        let item = copied_x_item(alloc, item)?;
        content.push(item)?;
    }
    Ok(content)
}

fn copied_terminal(
    alloc: Global,
    name: &Text,
    pattern: &Text,
    regex: &Regex,
    line: u32,
) -> Result<Unit, Memory>
    requires { IsPatternOf pattern.now regex.now }
    ensures outline { IfOk result (λ u. unit_outline u ≡ terminal name.now pattern.now line) }
    ensures regex { IfOk result HasRegex }
{
    let name = name.copy()?;
    let regex = copied_regex(alloc, regex)?;
    let pattern = pattern.copy()?;
    Ok(Unit::Terminal {
        name,
        pattern,
        regex,
        line,
    })
}

fn copied_ignorable(
    alloc: Global,
    name: &Text,
    pattern: &Text,
    regex: &Regex,
    line: u32,
    normal: &Text,
) -> Result<Unit, Memory>
    requires { IsPatternOf pattern.now regex.now }
    ensures outline { IfOk result (λ u. unit_outline u ≡ ignorable name.now pattern.now normal.now line) }
    ensures regex { IfOk result HasRegex }
{
    let name = name.copy()?;
    let regex = copied_regex(alloc, regex)?;
    let pattern = pattern.copy()?;
    let normal = normal.copy()?;
    Ok(Unit::Ignorable {
        name,
        pattern,
        regex,
        normal,
        line,
    })
}

fn copied_production(
    alloc: Global,
    name: &Text,
    left: &[Item],
    right: &[XItem],
    line: u32,
) -> Result<Unit, Memory>
    ensures outline { IfOk result (λ u. unit_outline u ≡ production name.now left.now (content_of right.now) line) }
    ensures regex { IfOk result HasRegex }
{
    let name = name.copy()?;
    let left = copied_items(alloc, left)?;
    let right = copied_content(alloc, right)?;
    Ok(Unit::Production {
        name,
        left,
        right,
        line,
    })
}

fn copied_fence(left: &Text, right: &Text, line: u32) -> Result<Unit, Memory>
    ensures outline { IfOk result (λ u. unit_outline u ≡ fence left.now right.now line) }
    ensures regex { IfOk result HasRegex }
{
    let left = left.copy()?;
    let right = right.copy()?;
    Ok(Unit::Fence { left, right, line })
}

fn copied_unit(alloc: Global, unit: &Unit) -> Result<Unit, Memory>
    requires { HasRegex unit.now }
    ensures outline { IfOk result (λ u. unit_outline u ≡ unit_outline unit.now) }
    ensures regex { IfOk result HasRegex }
{
    match unit {
        Unit::Terminal {
            name,
            pattern,
            regex,
            line,
        } => copied_terminal(alloc, name, pattern, regex, *line),
        Unit::Ignorable {
            name,
            pattern,
            regex,
            normal,
            line,
        } => copied_ignorable(alloc, name, pattern, regex, *line, normal),
        Unit::Production {
            name,
            left,
            right,
            line,
        } => copied_production(alloc, name, left.as_slice(), right.as_slice(), *line),
        Unit::Fence { left, right, line } => copied_fence(left, right, *line),
    }
}

/// The same units once more, in time linear in them and in their regexes.
pub fn copied_units(alloc: Global, units: &[Unit]) -> Result<Vec<Unit>, Memory>
    requires { HaveRegexes units.now }
    ensures { IfOk result (λ v. AreCopies units.now v.items) }
{
    let mut all = Vec::with_capacity(alloc, units.len())?;
    'units: for unit in units {
        let unit = copied_unit(alloc, unit)?;
        all.push(unit)?;
    }
    Ok(all)
}
