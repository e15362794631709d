ghost use Rattle.std.specs.Prelude.{◌≡◌, ◌++◌, IfOk, OnOk};
ghost use Rattle.xs_talk.specs.Lines.{line as line_at, numbered as numbered_as, rule_words as words_of_rule, ill_line as line_of_ill, report_begin, shared, cut_at, cut_words, report_line};

use crate::words::{push_decimal, push_quoted};
use crate::{Outcome, Report};
use std::alloc::Global;
use xs_class::{Bytes, Memory, Names, Side, Text, Word};
use xs_pair::{Ill, IllRule};

const USAGE: &[u8] =
    b"usage: xsugar check S | to-xml S [F] | to-text S | round S text [F] | round S xml | trees S M | sheet | sheet 2 | make SEED LINES | upgrade S | prove S | check S cert C | session S | to-tree S text [F] | to-tree S xml | from-tree S text | from-tree S xml | cover S\n";

/// Appends a number between two texts.
pub fn push_numbered(
    out: &mut Bytes,
    before: &[u8],
    number: u64,
    after: &[u8],
) -> Result<(), Memory>
    ensures { OnOk result (out.new ≡ out.old ++ numbered_as before.now number after.now) }
{
    out.extend(before)?;
    push_decimal(out, number)?;
    out.extend(after)?;
    Ok(())
}

fn numbered(alloc: Global, before: &[u8], number: u64, after: &[u8]) -> Result<Bytes, Memory>
    ensures { IfOk result (λ line. line ≡ numbered_as before.now number after.now) }
{
    let mut line = Bytes::new(alloc);
    push_numbered(&mut line, before, number, after)?;
    Ok(line)
}

fn rule_words(rule: IllRule) -> &'static [u8]
    ensures { result.now ≡ words_of_rule rule }
{
    match rule {
        IllRule::Twice => b"name defined twice",
        IllRule::Undefined => b"name not defined",
        IllRule::NoStart => b"start is not a nonterminal",
        IllRule::NameOnce => b"named item not once on both sides",
        IllRule::Kind => b"item of a wrong kind",
        IllRule::AttrTwice => b"attribute twice",
        IllRule::RootShape => b"start is not one element",
        IllRule::EmptyClass => b"empty class",
        IllRule::NotChar => b"character not allowed",
        IllRule::Normal => b"normal spelling does not match",
        IllRule::Unproductive => b"derives no word",
        IllRule::Loop => b"derives itself",
        IllRule::FenceChar => b"fence is not two new characters",
        IllRule::FenceInside => b"fence inside a regular expression",
        IllRule::FenceOpen => b"fence not closed",
    }
}

fn ill_line(alloc: Global, ill: Ill) -> Result<Bytes, Memory>
    ensures { IfOk result (λ line. line ≡ line_of_ill ill) }
{
    let mut line = numbered(alloc, b"sheet: line ", u64::from(ill.line), b": ")?;
    line.extend(rule_words(ill.rule))?;
    line.push(b'\n')?;
    Ok(line)
}

/// The beginning of a report: the side and the nonterminal.
fn begun(alloc: Global, side: Side, name: &Text) -> Result<Bytes, Memory>
    ensures { IfOk result (λ line. line ≡ report_begin side name.now) }
{
    let mut line = match side {
        Side::Text => Bytes::of(alloc, b"suspect: text: ")?,
        Side::Xml => Bytes::of(alloc, b"suspect: xml: ")?,
    };
    line.extend(name.as_str().as_bytes())?;
    Ok(line)
}

/// Appends what two rules share.
fn push_shared(
    alloc: Global,
    out: &mut Bytes,
    names: &Names,
    line: u32,
    line2: u32,
    word: &Word,
) -> Result<(), Memory>
    ensures { OnOk result (out.new ≡ out.old ++ shared names.now line line2 word.now) }
{
    push_numbered(out, b": lines ", u64::from(line), b" and ")?;
    push_numbered(out, b"", u64::from(line2), b" share ")?;
    push_quoted(alloc, out, names, word)?;
    out.push(b'\n')?;
    Ok(())
}

/// Appends where a rule can be cut in two ways.
fn push_cut(out: &mut Bytes, line: u32, cut: u32) -> Result<(), Memory>
    ensures { OnOk result (out.new ≡ out.old ++ cut_at line cut) }
{
    push_numbered(out, b": line ", u64::from(line), b", cut ")?;
    push_numbered(out, b"", u64::from(cut), b": ")?;
    Ok(())
}

/// Appends the words before a cut, in the middle and after it.
fn push_words(
    alloc: Global,
    out: &mut Bytes,
    names: &Names,
    x: &Word,
    a: &Word,
    y: &Word,
) -> Result<(), Memory>
    ensures { OnOk result (out.new ≡ out.old ++ cut_words names.now x.now a.now y.now) }
{
    push_quoted(alloc, out, names, x)?;
    out.push(b' ')?;
    push_quoted(alloc, out, names, a)?;
    out.push(b' ')?;
    push_quoted(alloc, out, names, y)?;
    out.push(b'\n')?;
    Ok(())
}

fn report_of(alloc: Global, report: &Report, names: &Names) -> Result<Bytes, Memory>
    ensures { IfOk result (λ line. line ≡ report_line names.now report.now) }
{
    match report {
        Report::Vertical {
            side,
            name,
            line,
            line2,
            word,
        } => {
            let mut out = begun(alloc, *side, name)?;
            push_shared(alloc, &mut out, names, *line, *line2, word)?;
            Ok(out)
        }
        Report::Horizontal {
            side,
            name,
            line,
            cut,
            x,
            a,
            y,
        } => {
            let mut out = begun(alloc, *side, name)?;
            push_cut(&mut out, *line, *cut)?;
            push_words(alloc, &mut out, names, x, a, y)?;
            Ok(out)
        }
    }
}

/// The line that reports an outcome, with the line feed that ends it; empty for Done and NoteFault.
/// Words of the sheet's marks are shown by the sheet's names. Linear in the words of the outcome
/// and the names that they mark.
pub fn line_of(alloc: Global, outcome: &Outcome, names: &Names) -> Result<Bytes, Memory>
    ensures { IfOk result (λ line. line ≡ line_at names.now outcome.now) }
{
    match outcome {
        Outcome::Done | Outcome::NoteFault { .. } => Ok(Bytes::new(alloc)),
        Outcome::Foreign { viable } => {
            numbered(alloc, b"input: foreign after ", *viable, b" symbols\n")
        }
        Outcome::SheetLong => Bytes::of(alloc, b"sheet: more than 65536 bytes\n"),
        Outcome::SheetBad { at } => {
            numbered(alloc, b"sheet: byte ", *at, b": not expected here\n")
        }
        Outcome::SheetIll(ill) => ill_line(alloc, *ill),
        Outcome::Heavy { weight } => {
            numbered(alloc, b"sheet: weight ", *weight, b" is more than 8192\n")
        }
        Outcome::Suspect(report) => report_of(alloc, report, names),
        Outcome::NotUtf8 { at } => numbered(alloc, b"input: byte ", *at, b": not UTF-8\n"),
        Outcome::NotXml { at } => numbered(alloc, b"input: character ", *at, b": not XML\n"),
        Outcome::Usage => Bytes::of(alloc, USAGE),
        Outcome::SheetFault => Bytes::of(alloc, b"sheet: cannot be read\n"),
        Outcome::ReadFault => Bytes::of(alloc, b"input: cannot be read\n"),
        Outcome::WriteFault { written } => {
            numbered(
                alloc,
                b"output: cannot be written after ",
                *written,
                b" bytes\n",
            )
        }
        Outcome::DocLong => Bytes::of(alloc, b"input: more than 1048576 bytes\n"),
        Outcome::ScriptBad { line } => {
            numbered(alloc, b"script: line ", *line, b": not expected here\n")
        }
        Outcome::CertFault => Bytes::of(alloc, b"certificate: cannot be read\n"),
        Outcome::CertLong => Bytes::of(alloc, b"certificate: more than 268435456 bytes\n"),
        Outcome::CertBad { line } => {
            numbered(
                alloc,
                b"certificate: line ",
                *line,
                b": not expected here\n",
            )
        }
        Outcome::OutlineBad { line } => {
            numbered(alloc, b"outline: line ", *line, b": not expected here\n")
        }
    }
}
