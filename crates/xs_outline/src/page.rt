ghost use Rattle.std.specs.Prelude.{◌≡◌, ◌++◌, true, OnOk};
ghost use Rattle.std.specs.Char.{IsScalar};
ghost use Rattle.std.specs.Str.{all_scalars};
ghost use Rattle.xs_sheet.specs.{quoted};
ghost use Rattle.xs_outline.specs.Lines.{number_text};

use itoa::Buffer;
use xs_class::{Memory, Sym, Text};
use xs_sheet::push_quoted_character;

/// Appends a number in decimal digits.
pub fn push_decimal(page: &mut Text, number: u64) -> Result<(), Memory>
    ensures { OnOk result (page.new ≡ page.old ++ number_text number) }
{
    let mut digits = Buffer::new();
    page.push_str(digits.format(number))
}

/// The character that the symbol is.
fn character(symbol: Sym) -> char
    requires { IsScalar symbol }
    ensures { result ≡ symbol }
{
    char::from_u32(symbol.number()).unwrap()
}

/// Appends a quoted string that stands for the word.
pub fn push_quoted(page: &mut Text, word: &[Sym]) -> Result<(), Memory>
    requires { all_scalars word.now ≡ true }
    ensures { OnOk result (page.new ≡ page.old ++ quoted word.now) }
{
    page.push('"')?;
    'symbols: for symbol in word {
        push_quoted_character(page, character(*symbol))?;
    }
    page.push('"')
}
