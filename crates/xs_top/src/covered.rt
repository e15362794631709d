ghost use Rattle.std.specs.Prelude.{◌<◌, length, IfOk};
ghost use Rattle.xs_cover.specs.{AreCoversOf};
ghost use Rattle.xs_pair.specs.{IsSoundPair};
ghost use Rattle.xs_text_out.specs.{IsPrinterOf};
ghost use Rattle.xs_top.specs.Covering.{IsShown, AreShown, IsCovered};

use bumpalo::Bump;
use std::alloc::Global;
use xs_class::{Bytes, Memory, Side};
use xs_cover::{Covers, cover};
use xs_pair::Two;
use xs_talk::{Shown, cover_text};
use xs_text_out::Printer;

/// What productions print, on either side.
#[derive(Drop)]
struct Printers {
    text: Printer,
    xml: Printer,
}

impl Printers {
    /// The printers of both grammars.
    fn new(alloc: Global, two: &Two) -> Result<Printers, Memory>
        ensures text { IfOk result (λ p. IsPrinterOf two.now.text p.text) }
        ensures xml { IfOk result (λ p. IsPrinterOf two.now.xml p.xml) }
    {
        Ok(Printers {
            text: Printer::new(alloc, two.gram(Side::Text))?,
            xml: Printer::new(alloc, two.gram(Side::Xml))?,
        })
    }
}

/// What is shown of a production: a smallest document pair that uses it, if it is not too long.
fn shown_of(
    alloc: Global,
    two: &Two,
    covers: &Covers<'_>,
    printers: &Printers,
    rule: u32,
) -> Result<Shown, Memory>
    requires sound { IsSoundPair two.now }
    requires covers { AreCoversOf two.now covers.now }
    requires text { IsPrinterOf two.now.text printers.now.text }
    requires xml { IsPrinterOf two.now.xml printers.now.xml }
    requires rule { rule < length two.now.text.rules }
    ensures { IfOk result (IsShown two.now rule) }
{
    let Some(size) = covers.size(rule) else {
        return Ok(Shown::Unreached);
    };
    let Some(tree) = covers.tree(two, rule)? else {
        return Ok(Shown::Long { size });
    };
    let text = printers.text.print(alloc, two.gram(Side::Text), &tree)?;
    let xml = printers.xml.print(alloc, two.gram(Side::Xml), &tree)?;
    Ok(Shown::Pair { size, text, xml })
}

/// What is shown of each production, in their order.
fn all_shown(alloc: Global, two: &Two) -> Result<Vec<Shown>, Memory>
    requires { IsSoundPair two.now }
    ensures { IfOk result (λ all. AreShown two.now all.items) }
{
    let bump = Bump::new(alloc);
    let covers = cover(alloc, &bump, two)?;
    let printers = Printers::new(alloc, two)?;
    let count = two.gram(Side::Text).rules();
    let mut all = Vec::with_capacity(alloc, count as usize)?;
    'rules: for rule in 0..count {
        let shown = shown_of(alloc, two, &covers, &printers, rule)?;
        all.push(shown)?;
    }
    Ok(all)
}

/// The lines of a smallest document pair for each production.
pub fn covered(alloc: Global, two: &Two) -> Result<Bytes, Memory>
    requires { IsSoundPair two.now }
    ensures { IfOk result (IsCovered two.now) }
{
    let all = all_shown(alloc, two)?;
    cover_text(alloc, two.names(), &all)
}
