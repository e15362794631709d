ghost use Rattle.std.specs.Prelude.{◌≡◌, ◌≤◌, IfSome, map, string_bytes};
ghost use Rattle.std.specs.Option.{option_map};
ghost use Rattle.xs_words.specs.Command.{command_of as meant_by, command_of_two, command_of_three, command_of_four, printed_of, form_of, side_of, sheet_of, round_of, make_of};
ghost use Rattle.xs_words.specs.Meaning.{meant, sheet_meant, HasLines};

use crate::number::number;
use crate::{Command, SheetName};
use xs_chars::Form;
use xs_class::Side;

const MOST_TREES: u32 = 1000;

const GREATEST_SEED: u32 = 2_147_483_647;

const MOST_LINES: u32 = 2000;

/// The sheet that the word names.
fn sheet_name(word: &str) -> SheetName<'_>
    ensures { sheet_meant result ≡ sheet_of word.now }
{
    if word == "@leiden" {
        SheetName::Leiden
    } else if word == "@leiden2" {
        SheetName::Leiden2
    } else {
        SheetName::File(word)
    }
}

/// The form that the word names.
fn form_named(word: &str) -> Option<Form>
    ensures { result ≡ form_of word.now }
{
    match word {
        "asis" => Some(Form::AsIs),
        "nfc" => Some(Form::Nfc),
        "nfd" => Some(Form::Nfd),
        _ => None,
    }
}

/// The side that the word names.
fn side_named(word: &str) -> Option<Side>
    ensures { result ≡ side_of word.now }
{
    match word {
        "text" => Some(Side::Text),
        "xml" => Some(Side::Xml),
        _ => None,
    }
}

/// The command `sheet` with the number of a sheet.
fn printed<'w>(number: &'w str) -> Option<Command<'w>>
    ensures command { option_map meant result ≡ printed_of number.now }
    ensures lines { IfSome result HasLines }
{
    if number == "2" {
        return Some(Command::PrintSheet2);
    }
    None
}

/// A command of two words.
fn of_two<'w>(verb: &str, second: &'w str) -> Option<Command<'w>>
    ensures command { option_map meant result ≡ command_of_two verb.now second.now }
    ensures lines { IfSome result HasLines }
{
    let sheet = sheet_name(second);
    match verb {
        "check" => Some(Command::Check { sheet }),
        "to-xml" => Some(Command::ToXml {
            sheet,
            form: Form::AsIs,
        }),
        "to-text" => Some(Command::ToText { sheet }),
        "session" => Some(Command::Session { sheet }),
        "cover" => Some(Command::Cover { sheet }),
        "upgrade" => Some(Command::Upgrade { sheet }),
        "prove" => Some(Command::Prove { sheet }),
        "sheet" => printed(second),
        _ => None,
    }
}

/// The command `round` without a form.
fn round<'w>(sheet: &'w str, side: &str) -> Option<Command<'w>>
    ensures command { option_map meant result ≡ round_of sheet.now side.now }
    ensures lines { IfSome result HasLines }
{
    let sheet = sheet_name(sheet);
    match side {
        "text" => Some(Command::RoundText {
            sheet,
            form: Form::AsIs,
        }),
        "xml" => Some(Command::RoundXml { sheet }),
        _ => None,
    }
}

/// The command `make`, where both numbers are in range.
fn make<'w>(seed: Option<u32>, lines: Option<u32>) -> Option<Command<'w>>
    requires { IfSome lines (λ n. (1 ≤ n) × (n ≤ 2000)) }
    ensures command { option_map meant result ≡ make_of seed lines }
    ensures lines { IfSome result HasLines }
{
    match (seed, lines) {
        (Some(seed), Some(lines)) => Some(Command::Make { seed, lines }),
        _ => None,
    }
}

/// A command of three words.
fn of_three<'w>(verb: &str, first: &'w str, second: &str) -> Option<Command<'w>>
    ensures command { option_map meant result ≡ command_of_three verb.now first.now second.now }
    ensures lines { IfSome result HasLines }
{
    match verb {
        "to-xml" => {
            let form = form_named(second)?;
            let sheet = sheet_name(first);
            Some(Command::ToXml { sheet, form })
        }
        "round" => round(first, second),
        "trees" => {
            let max = number(second, 1, MOST_TREES)?;
            let sheet = sheet_name(first);
            Some(Command::Trees { sheet, max })
        }
        "make" => make(
            number(first, 0, GREATEST_SEED),
            number(second, 1, MOST_LINES),
        ),
        "to-tree" => {
            let side = side_named(second)?;
            let sheet = sheet_name(first);
            Some(Command::ToTree {
                sheet,
                side,
                form: Form::AsIs,
            })
        }
        "from-tree" => {
            let side = side_named(second)?;
            let sheet = sheet_name(first);
            Some(Command::FromTree { sheet, side })
        }
        _ => None,
    }
}

/// A command of four words.
fn of_four<'w>(verb: &str, sheet: &'w str, third: &str, last: &'w str) -> Option<Command<'w>>
    ensures command { option_map meant result ≡ command_of_four verb.now sheet.now third.now last.now }
    ensures lines { IfSome result HasLines }
{
    let sheet = sheet_name(sheet);
    if verb == "round" && third == "text" {
        let form = form_named(last)?;
        return Some(Command::RoundText { sheet, form });
    }
    if verb == "to-tree" && third == "text" {
        let form = form_named(last)?;
        return Some(Command::ToTree {
            sheet,
            side: Side::Text,
            form,
        });
    }
    if verb == "check" && third == "cert" {
        return Some(Command::CheckCert { sheet, cert: last });
    }
    None
}

/// The command that the words are, or None where they are none.
///
/// The forms are `check SHEET`, `to-xml SHEET`, `to-xml SHEET FORM`, `to-text SHEET`, `round SHEET
/// text`, `round SHEET text FORM`, `round SHEET xml`, `trees SHEET MAX`, `sheet`, `sheet 2`, `make
/// SEED LINES`, `upgrade SHEET`, `prove SHEET`, `check SHEET cert FILE`, `session SHEET`, `to-tree
/// SHEET text`, `to-tree SHEET text FORM`, `to-tree SHEET xml`, `from-tree SHEET text`, `from-tree
/// SHEET xml` and `cover SHEET`. FILE is a file's name. SHEET is `@leiden`, `@leiden2` or a file's
/// name, and FORM `asis`, which is meant where it is left out, `nfc` or `nfd`. MAX is 1 to 1,000,
/// SEED 0 to 2,147,483,647 and LINES 1 to 2,000, each in decimal digits without a sign, and without
/// a leading zero but for `0` itself. Takes no memory; time is linear in the words.
pub fn command_of(words: &[String]) -> Option<Command<'_>>
    ensures command { option_map meant result ≡ meant_by (map string_bytes words.now) }
    ensures lines { IfSome result HasLines }
{
    match words {
        [] => None,
        [verb] => {
            if verb.as_str() == "sheet" {
                Some(Command::PrintSheet)
            } else {
                None
            }
        }
        [verb, sheet] => of_two(verb.as_str(), sheet.as_str()),
        [verb, first, second] => of_three(verb.as_str(), first.as_str(), second.as_str()),
        [verb, sheet, third, last] => of_four(
            verb.as_str(),
            sheet.as_str(),
            third.as_str(),
            last.as_str(),
        ),
        [_, _, _, _, _, ..] => None,
    }
}
