ghost use Rattle.std.specs.Prelude.{◌≡◌};
ghost use Rattle.xs_class.specs.declared.side.Side.TheVariants as S;
ghost use Rattle.xs_chars.specs.declared.form.Form.TheVariants as F;
ghost use Rattle.xs_c.specs.declared.working.Work.TheVariants as W;
ghost use Rattle.xs_c.specs.Works.{IsDone, IsNoRefusalOfSheet, side_of, form_of};

use crate::answer::Answer;
use crate::sheet::Sheet;
use crate::working::{Work, done};
use std::alloc::Global;
use xs_chars::Form;
use xs_class::Side;

/// The side of a number of C's: 0 for text, and else XML.
fn side(number: u32) -> Side
    ensures { result ≡ side_of number }
{
    if number == 0 { Side::Text } else { Side::Xml }
}

/// The form of a number of C's: 1 for NFC, 2 for NFD, and else as it is.
fn form(number: u32) -> Form
    ensures { result ≡ form_of number }
{
    if number == 1 {
        Form::Nfc
    } else if number == 2 {
        Form::Nfd
    } else {
        Form::AsIs
    }
}

/// Translates a text to XML.
#[unsafe(no_mangle)]
pub extern "C" fn xsugar_to_xml(
    alloc: Global,
    sheet: &mut Sheet,
    text: &[u8],
    text_form: u32,
    answer: &mut Answer,
) -> u32
    ensures kept { sheet.new.held.kept ≡ sheet.old.held.kept }
    ensures done { IsDone sheet.old.held.kept (W.Turn S.Text S.Xml (form_of text_form)) text.now answer.old answer.new result }
    ensures accepted { IsNoRefusalOfSheet result }
{
    let work = Work::Turn {
        from: Side::Text,
        to: Side::Xml,
        form: form(text_form),
    };
    done(alloc, sheet, work, text, answer)
}

/// Translates XML to a text.
#[unsafe(no_mangle)]
pub extern "C" fn xsugar_to_text(
    alloc: Global,
    sheet: &mut Sheet,
    xml: &[u8],
    answer: &mut Answer,
) -> u32
    ensures kept { sheet.new.held.kept ≡ sheet.old.held.kept }
    ensures done { IsDone sheet.old.held.kept (W.Turn S.Xml S.Text F.AsIs) xml.now answer.old answer.new result }
    ensures accepted { IsNoRefusalOfSheet result }
{
    let work = Work::Turn {
        from: Side::Xml,
        to: Side::Text,
        form: Form::AsIs,
    };
    done(alloc, sheet, work, xml, answer)
}

/// Puts a text into its normal spelling.
#[unsafe(no_mangle)]
pub extern "C" fn xsugar_round_text(
    alloc: Global,
    sheet: &mut Sheet,
    document: &[u8],
    text_form: u32,
    answer: &mut Answer,
) -> u32
    ensures kept { sheet.new.held.kept ≡ sheet.old.held.kept }
    ensures done { IsDone sheet.old.held.kept (W.Turn S.Text S.Text (form_of text_form)) document.now answer.old answer.new result }
    ensures accepted { IsNoRefusalOfSheet result }
{
    let work = Work::Turn {
        from: Side::Text,
        to: Side::Text,
        form: form(text_form),
    };
    done(alloc, sheet, work, document, answer)
}

/// Puts XML into its normal spelling.
#[unsafe(no_mangle)]
pub extern "C" fn xsugar_round_xml(
    alloc: Global,
    sheet: &mut Sheet,
    document: &[u8],
    answer: &mut Answer,
) -> u32
    ensures kept { sheet.new.held.kept ≡ sheet.old.held.kept }
    ensures done { IsDone sheet.old.held.kept (W.Turn S.Xml S.Xml F.AsIs) document.now answer.old answer.new result }
    ensures accepted { IsNoRefusalOfSheet result }
{
    let work = Work::Turn {
        from: Side::Xml,
        to: Side::Xml,
        form: Form::AsIs,
    };
    done(alloc, sheet, work, document, answer)
}

/// Writes the outline of the tree of a document of a side, a text in a form.
#[unsafe(no_mangle)]
pub extern "C" fn xsugar_to_tree(
    alloc: Global,
    sheet: &mut Sheet,
    document: &[u8],
    from: u32,
    text_form: u32,
    answer: &mut Answer,
) -> u32
    ensures kept { sheet.new.held.kept ≡ sheet.old.held.kept }
    ensures done { IsDone sheet.old.held.kept (W.Outline (side_of from) (form_of text_form)) document.now answer.old answer.new result }
    ensures accepted { IsNoRefusalOfSheet result }
{
    let work = Work::Outline {
        from: side(from),
        form: form(text_form),
    };
    done(alloc, sheet, work, document, answer)
}

/// Writes the document of a side that has the tree of an outline.
#[unsafe(no_mangle)]
pub extern "C" fn xsugar_from_tree(
    alloc: Global,
    sheet: &mut Sheet,
    outline: &[u8],
    to: u32,
    answer: &mut Answer,
) -> u32
    ensures kept { sheet.new.held.kept ≡ sheet.old.held.kept }
    ensures done { IsDone sheet.old.held.kept (W.Make (side_of to)) outline.now answer.old answer.new result }
    ensures accepted { IsNoRefusalOfSheet result }
{
    done(alloc, sheet, Work::Make { to: side(to) }, outline, answer)
}

/// Plays an edit script over a text that begins empty, and writes its answers.
#[unsafe(no_mangle)]
pub extern "C" fn xsugar_session(
    alloc: Global,
    sheet: &mut Sheet,
    script: &[u8],
    answer: &mut Answer,
) -> u32
    ensures kept { sheet.new.held.kept ≡ sheet.old.held.kept }
    ensures done { IsDone sheet.old.held.kept W.Session script.now answer.old answer.new result }
    ensures accepted { IsNoRefusalOfSheet result }
{
    done(alloc, sheet, Work::Session, script, answer)
}
