use xs_chars::Form;
use xs_class::Side;

/// The sheet that a word names: `@leiden` and `@leiden2` name those that the program includes, and
/// any other word a file.
#[derive(Clone, Copy)]
pub enum SheetName<'w> {
    Leiden,
    Leiden2,
    File(&'w str),
}

/// What the words ask for.
#[derive(Clone, Copy)]
pub enum Command<'w> {
    /// `check SHEET`: whether the sheet is accepted.
    Check {
        sheet: SheetName<'w>,
    },
    /// `to-xml SHEET` or `to-xml SHEET FORM`: the text of the input as XML.
    ToXml {
        sheet: SheetName<'w>,
        form: Form,
    },
    /// `to-text SHEET`: the XML of the input as text.
    ToText {
        sheet: SheetName<'w>,
    },
    /// `round SHEET text` or `round SHEET text FORM`: the text of the input, to XML and back.
    RoundText {
        sheet: SheetName<'w>,
        form: Form,
    },
    /// `round SHEET xml`: the XML of the input, to text and back.
    RoundXml {
        sheet: SheetName<'w>,
    },
    /// `trees SHEET MAX`: at most `max` derivations of the text of the input, 1 to 1,000.
    Trees {
        sheet: SheetName<'w>,
        max: u32,
    },
    /// `sheet`: the first sheet that the program includes.
    PrintSheet,
    /// `sheet 2`: the second one, with marks inside marks.
    PrintSheet2,
    /// `make SEED LINES`: a text of 1 to 2,000 lines that is made from a seed of at most
    /// 2,147,483,647.
    Make {
        seed: u32,
        lines: u32,
    },
    /// `upgrade SHEET`: the sheet as one of version 2, with the fences that it can have.
    Upgrade {
        sheet: SheetName<'w>,
    },
    /// `prove SHEET`: a certificate that the sheet is accepted.
    Prove {
        sheet: SheetName<'w>,
    },
    /// `check SHEET cert FILE`: whether the sheet is accepted, by a certificate in place of the search.
    CheckCert {
        sheet: SheetName<'w>,
        cert: &'w str,
    },
    /// `session SHEET`: the edit script of the input, played and answered line by line.
    Session {
        sheet: SheetName<'w>,
    },
    /// `to-tree SHEET text`, `to-tree SHEET text FORM` or `to-tree SHEET xml`: the outline of the
    /// tree of the input, a text in this form, or XML as it is.
    ToTree {
        sheet: SheetName<'w>,
        side: Side,
        form: Form,
    },
    /// `from-tree SHEET text` or `from-tree SHEET xml`: the document on this side that has the tree
    /// of the outline of the input.
    FromTree {
        sheet: SheetName<'w>,
        side: Side,
    },
    /// `cover SHEET`: a smallest document pair for each production of the sheet.
    Cover {
        sheet: SheetName<'w>,
    },
}
