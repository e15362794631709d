ghost use Rattle.std.specs.Prelude.{◌≡◌, ◌==◌, ◌<◌, ◌≤◌, ℕ, Bool, map, length, IsTrue};
ghost use Rattle.std.specs.Option.{option_map, option_copied};
ghost use Rattle.xs_xml_laws.specs.{is_char, is_name_char, is_white, is_digit, is_hex, is_quote, is_name, all_of, same, lower, after, span, cut};
ghost use Rattle.xs_form.specs.State.{is_bare};
ghost use Rattle.xs_class.specs.{is_name_start};

use xs_class::{Sym, is_char, is_name_char, is_name_start};

/// A kind of symbols, by a test.
trait Kind {
    /// Whether a symbol is of this kind.
    ghost test: { ℕ → Bool };

    /// Whether the symbol is of this kind.
    fn has(symbol: Sym) -> bool
        ensures { result ≡ test symbol };
}

/// Whether the symbol is this ASCII character.
pub fn is(symbol: Sym, byte: u8) -> bool
    ensures { result ≡ (symbol == byte) }
{
    symbol.number() == u32::from(byte)
}

/// Whether the symbol is white space.
#[tactic(auto, unfolding(xs_xml_laws::specs::Tables::is_white))]
pub fn white(symbol: Sym) -> bool
    ensures { result ≡ is_white symbol }
{
    let number = symbol.number();
    9 <= number && number <= 10 || number == 13 || number == 32
}

/// White space.
struct WhiteSpace;

impl Kind for WhiteSpace {
    ghost test = { is_white };

    fn has(symbol: Sym) -> bool {
        white(symbol)
    }
}

/// Whether the symbol is a quote.
#[tactic(auto, unfolding(xs_xml_laws::specs::Tables::is_quote))]
pub fn quotes(symbol: Sym) -> bool
    ensures { result ≡ is_quote symbol }
{
    is(symbol, b'"') || is(symbol, b'\'')
}

/// Whether the symbol is a decimal digit.
#[tactic(auto, unfolding(xs_xml_laws::specs::Tables::is_digit))]
pub fn digit(symbol: Sym) -> bool
    ensures { result ≡ is_digit symbol }
{
    let number = symbol.number();
    48 <= number && number <= 57
}

/// Whether the symbol is a hexadecimal digit.
#[tactic(auto, unfolding(xs_xml_laws::specs::Tables::is_hex))]
pub fn hexadecimal(symbol: Sym) -> bool
    ensures { result ≡ is_hex symbol }
{
    let number = symbol.number();
    48 <= number && number <= 57 || 65 <= number && number <= 70 || 97 <= number && number <= 102
}

/// Whether the number is that of a Char.
pub fn allowed(number: u32) -> bool
    ensures { result ≡ is_char number }
{
    is_char(number)
}

/// The symbols whose numbers are those of a Char.
struct Characters;

impl Kind for Characters {
    ghost test = { is_char };

    fn has(symbol: Sym) -> bool {
        allowed(symbol.number())
    }
}

/// Whether the character stands for itself in content, whatever stands around it.
pub fn bare(symbol: Sym) -> bool
    ensures { result ≡ is_bare symbol }
{
    let number = symbol.number();
    if 93 < number && number < 0xD800 {
        return true;
    }
    allowed(number)
        && !(number == 60 || number == 38 || number == 62 || number == 93 || number == 13)
}

/// The characters that stand for themselves in content.
struct BareCharacters;

impl Kind for BareCharacters {
    ghost test = { is_bare };

    fn has(symbol: Sym) -> bool {
        bare(symbol)
    }
}

/// Whether the number is that of a small letter of ASCII.
fn small(number: u32) -> bool
    ensures { IsTrue result → (97 ≤ number) × (number ≤ 122) }
{
    97 <= number && number <= 122
}

/// Whether a Name may begin with the symbol.
pub fn begins_name(symbol: Sym) -> bool
    ensures { result ≡ is_name_start symbol }
{
    let number = symbol.number();
    small(number) || is_name_start(number)
}

/// Whether the symbol may stand in a Name.
pub fn in_name(symbol: Sym) -> bool
    ensures { result ≡ is_name_char symbol }
{
    let number = symbol.number();
    small(number) || is_name_char(number)
}

/// The characters of names.
struct NameCharacters;

impl Kind for NameCharacters {
    ghost test = { is_name_char };

    fn has(symbol: Sym) -> bool {
        in_name(symbol)
    }
}

/// The symbols of a kind at the front, and the rest.
fn run<K: Kind>(text: &[Sym]) -> (&[Sym], &[Sym])
    ensures { (result.0.now, result.1.now) ≡ span K.test text.now }
{
    let mut end = 0;
    'run: while end < text.len() && K::has(text[end]) {
        end += 1;
    }
    (&text[..end], &text[end..])
}

/// Whether each symbol is of a kind.
fn all<K: Kind>(text: &[Sym]) -> bool
    ensures { result ≡ all_of K.test text.now }
{
    'symbols: for symbol in text {
        if !K::has(*symbol) {
            return false;
        }
    }
    true
}

/// The characters of names at the front, and the rest.
pub fn name_run(text: &[Sym]) -> (&[Sym], &[Sym])
    ensures { (result.0.now, result.1.now) ≡ span is_name_char text.now }
{
    run::<NameCharacters>(text)
}

/// The white space at the front, and the rest.
pub fn white_run(text: &[Sym]) -> (&[Sym], &[Sym])
    ensures { (result.0.now, result.1.now) ≡ span is_white text.now }
{
    run::<WhiteSpace>(text)
}

/// The characters at the front that stand for themselves in content, and the rest.
pub fn bare_run(text: &[Sym]) -> (&[Sym], &[Sym])
    ensures { (result.0.now, result.1.now) ≡ span is_bare text.now }
{
    run::<BareCharacters>(text)
}

/// What stands after the prefix, where the text begins with it.
pub fn after_prefix<'a>(text: &'a [Sym], prefix: &[u8]) -> Option<&'a [Sym]>
    ensures { option_copied result ≡ after prefix.now text.now }
{
    let mut rest = text;
    'bytes: for byte in prefix {
        match rest {
            [] => return None,
            [first, others @ ..] => {
                if !is(*first, *byte) {
                    return None;
                }
                rest = others;
            }
        }
    }
    Some(rest)
}

/// What stands before the first delimiter, and what stands after it.
pub fn cut_at<'a>(text: &'a [Sym], delimiter: &[u8]) -> Option<(&'a [Sym], &'a [Sym])>
    requires { 0 < length delimiter.now }
    ensures { option_map (λ r. (r.0.now, r.1.now)) result ≡ cut delimiter.now text.now }
{
    let mut at = 0;
    'places: while at < text.len() {
        if let Some(rest) = after_prefix(&text[at..], delimiter) {
            return Some((&text[..at], rest));
        }
        at += 1;
    }
    None
}

/// Whether each character is a Char.
pub fn all_allowed(text: &[Sym]) -> bool
    ensures { result ≡ all_of is_char text.now }
{
    all::<Characters>(text)
}

/// Whether the text is a Name.
pub fn is_name_text(text: &[Sym]) -> bool
    ensures { result ≡ is_name text.now }
{
    match text {
        [] => false,
        [first, rest @ ..] => begins_name(*first) && all::<NameCharacters>(rest),
    }
}

/// Whether the two texts are the same.
pub fn equal(one: &[Sym], other: &[Sym]) -> bool
    ensures { result ≡ same one.now other.now }
{
    one == other
}

/// Whether the text is this ASCII word.
pub fn spells(text: &[Sym], word: &[u8]) -> bool
    ensures { result ≡ same text.now word.now }
{
    match after_prefix(text, word) {
        None => false,
        Some(rest) => rest.is_empty(),
    }
}

/// An ASCII letter in lower case, and any other symbol as it is.
fn lowered(symbol: Sym) -> Sym
    ensures { result ≡ lower symbol }
{
    let number = symbol.number();
    if 65 <= number && number <= 90 {
        Sym(number + 32)
    } else {
        symbol
    }
}

/// Whether the text is this ASCII word of lower-case letters, in any case.
pub fn spells_in_any_case(text: &[Sym], word: &[u8]) -> bool
    ensures { result ≡ same (map lower text.now) word.now }
{
    let mut rest = word;
    'symbols: for symbol in text {
        match rest {
            [] => return false,
            [first, others @ ..] => {
                if !is(lowered(*symbol), *first) {
                    return false;
                }
                rest = others;
            }
        }
    }
    rest.is_empty()
}
