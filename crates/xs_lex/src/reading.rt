ghost use Rattle.std.specs.Prelude.{◌≡◌, ◌≤◌, ◌==◌, ◌&&◌, ◌++◌, List, All, length, map, IfOk, IfSome, IfNone, if◌then◌else◌};
ghost use Rattle.std.specs.Str.{IsUtf8, chars};
ghost use Rattle.std.specs.Str.Lossy.{utf8_valid_len};
ghost use Rattle.xs_lex.specs.Between.{IsApart};
ghost use Rattle.xs_lex.specs.Reading.{Lexeme, IsTokenAt, NoToken, AreTokens, IsSlice, lexeme_of, valid};
ghost use Rattle.xs_lex.specs.Laws.{Separated};
ghost use Rattle.xs_lex.specs.Scan.{front_at};
ghost use Rattle.xs_class.specs.{is_empty};

use crate::blanks::blanks;
use crate::location::Location;
use crate::scan::token;
use crate::{Kind, Token, Tokens};
use std::alloc::Global;
use std::str;
use xs_class::Memory;

/// The bytes up to the first place that is not UTF-8.
fn valid_text(bytes: &[u8]) -> &str
    ensures { result.now ≡ valid bytes.now }
{
    match str::from_utf8(bytes) {
        Ok(text) => text,
        Err(error) => match str::from_utf8(&bytes[..error.valid_up_to()]) {
            Ok(text) => text,
            Err(_) => unreachable!(),
        },
    }
}

/// The tokens of a file of at most 65,536 bytes, in time linear in the file.
///
/// The last token, and no other, is `End` or `Bad`. `Bad` stands at the first place where no
/// token, white space or comment can be read.
pub fn tokens(alloc: Global, bytes: &[u8]) -> Result<Tokens, Memory>
    requires { length bytes.now ≤ 65536 }
    ensures tokens { IfOk result (λ ts. AreTokens bytes.now (map (lexeme_of bytes.now) ts)) }
    ensures only { IfOk result (λ ts. (us : List Lexeme) → AreTokens bytes.now us → us ≡ map (lexeme_of bytes.now) ts) }
    ensures slices { IfOk result (λ ts. All (IsSlice bytes.now) ts) }
{
    let text = valid_text(bytes);
    let letters: Vec<char> = text.chars().collect(alloc)?;
    let list = scanned(alloc, bytes, text.len() == bytes.len(), &letters)?;
    Ok(Tokens::from_vec(list))
}

/// The place after a byte order mark at the front, and the rest.
fn front(letters: &[char]) -> (Location, &[char])
    ensures rest { (result.0.at, result.1.now) ≡ front_at letters.now }
    ensures line { result.0.line ≡ 1 }
{
    match letters {
        ['\u{FEFF}', others @ ..] => (Location { at: 3, line: 1 }, others),
        _ => (Location { at: 0, line: 1 }, letters),
    }
}

/// What stands between tokens at the front of the text, and the rest.
fn split_blanks(text: &[char]) -> (&[char], &[char])
    ensures parts { text.now ≡ result.0.now ++ result.1.now }
    ensures apart { IsApart text.now result.1.now }
{
    text.split_at(blanks(text))
}

#[derive(Clone, Copy)]
struct Cut<'a> {
    kind: Kind,
    word: &'a [char],
    rest: &'a [char],
}

/// The longest token at the front of the text, if there is one.
fn split_token(text: &[char]) -> Option<Cut<'_>>
    ensures found { IfSome result (λ c. IsTokenAt text.now c.kind c.word.now c.rest.now) }
    ensures none { IfNone result (NoToken text.now) }
{
    let (kind, length) = token(text)?;
    let (word, rest) = text.split_at(length);
    Some(Cut { kind, word, rest })
}

/// The kind of the last token, where nothing more can be read.
fn last_kind(whole: bool, text: &[char]) -> Kind
    ensures { result ≡ (if whole && is_empty text.now then Kind.End else Kind.Bad) }
{
    if whole {
        if let [] = text {
            return Kind::End;
        }
    }
    Kind::Bad
}

/// The tokens of the file, whose part that is UTF-8 has these characters.
fn scanned(alloc: Global, bytes: &[u8], whole: bool, letters: &[char]) -> Result<Vec<Token>, Memory>
    requires few { length bytes.now ≤ 65536 }
    requires text { IsUtf8 (valid bytes.now) }
    requires letters { letters.now ≡ chars (valid bytes.now) }
    requires whole { whole ≡ (utf8_valid_len bytes.now == length bytes.now) }
    ensures tokens { IfOk result (λ ts. AreTokens bytes.now (map (lexeme_of bytes.now) ts.items)) }
    ensures slices { IfOk result (λ ts. All (IsSlice bytes.now) ts.items) }
{
    let mut list = Vec::new(alloc);
    let (mut location, mut rest) = front(letters);
    'tokens: loop {
        let (gap, text) = split_blanks(rest);
        let start = location.past(gap);
        let Some(next) = split_token(text) else {
            let kind = last_kind(whole, text);
            list.push(Token {
                kind,
                start: start.at,
                end: start.at,
                line: start.line,
            })?;
            return Ok(list);
        };
        let end = start.past(next.word);
        list.push(Token {
            kind: next.kind,
            start: start.at,
            end: end.at,
            line: start.line,
        })?;
        location = end;
        rest = next.rest;
    }
}

/// A token's word before white space is a token by itself.
pub fn separated()
    ensures { Separated }
{}
