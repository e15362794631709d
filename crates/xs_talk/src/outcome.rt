use xs_class::{Side, Text, Word};
use xs_pair::Ill;

/// What makes a sheet suspect of ambiguity: names and lines of the sheet, and words that show it.
#[derive(Debug, Drop)]
pub enum Report {
    /// Two productions of the nonterminal `name`, at these lines, share a loose word on this side.
    Vertical {
        side: Side,
        name: Text,
        line: u32,
        line2: u32,
        word: Word,
    },
    /// The production of `name` at this line can be cut in two ways after `cut` items of this side:
    /// `x` and `x a` are loose before the cut, `y` and `a y` after it.
    Horizontal {
        side: Side,
        name: Text,
        line: u32,
        cut: u32,
        x: Word,
        a: Word,
        y: Word,
    },
}

/// How a run ended.
#[derive(Debug, Drop)]
pub enum Outcome {
    /// `out` took exactly the answer, and `notes` nothing.
    Done,
    /// The document has no derivation; its first `viable` symbols begin some document that has one.
    Foreign { viable: u64 },
    /// The sheet's file has more than 65,536 bytes.
    SheetLong,
    /// The bytes are no sheet: `at` is the place, in bytes from 0, of the first token that no sheet
    /// has there.
    SheetBad { at: u64 },
    /// The sheet is not well formed.
    SheetIll(Ill),
    /// A rule of the sheet weighs too much to be checked.
    Heavy { weight: u64 },
    /// The sheet is suspect of ambiguity.
    Suspect(Report),
    /// The input is not UTF-8: `at` bytes are its longest prefix that is.
    NotUtf8 { at: u64 },
    /// The input is no XML of the profile: it breaks after `at` characters.
    NotXml { at: u64 },
    /// The words are no command.
    Usage,
    /// The sheet's file failed.
    SheetFault,
    /// The input failed.
    ReadFault,
    /// `out` failed, after it took the first `written` bytes of the answer.
    WriteFault { written: u64 },
    /// `notes` failed, after it took the first `written` bytes of the line of an outcome whose
    /// status is `of`.
    NoteFault { of: u8, written: u64 },
    /// The input has more than 1,048,576 bytes.
    DocLong,
    /// The input is no edit script: `line`, counted from 1, is the first line that spells no request.
    ScriptBad { line: u64 },
    /// The certificate's file failed.
    CertFault,
    /// The certificate's file has more than 268,435,456 bytes.
    CertLong,
    /// The file is no certificate of the sheet: `line`, counted from 1, is the first line after the
    /// longest good front of the file, of lines that begin a certificate and whose blocks are whole
    /// and right.
    CertBad { line: u64 },
    /// The input is no outline: `line`, counted from 1, is the first line such that the lines up to
    /// it begin none, or one more than the number of lines where the outline ends too early.
    OutlineBad { line: u64 },
}
