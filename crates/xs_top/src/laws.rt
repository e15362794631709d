ghost use Rattle.xs_top.specs.Certificates.{CertificatesAgree, ProofIsTaken, OneCertificate};
ghost use Rattle.xs_top.specs.Laws.{PairsAgree, SheetsAgree, OutlinesAgree, ScriptsAgree, OneAnswer, TranslatesBack, RoundIsIdempotent, TranslatesAgain, RefusesExactly, OneVerdict, OneFlaw, CheckDecides, CheckDecidesUpgrades, CheckDecidesCertificates, CheckAccepts};

use xs_cert_laws::alike_have_same_certificates;
use xs_check_laws::weights_are_exact;
use xs_sheet_laws::{
    alike_pairs_mean_the_same, alike_sheets_mean_the_same, one_pair, one_sheet, refused_once,
};
use xs_xml_laws::one_word;

/// Two pairs of grammars of the same bytes mean the same, and so do two sheets; an outline is of the
/// same tree by either pair, a script has the same answers, and pairs that are built have the same
/// certificates.
pub fn bytes_agree()
    ensures pairs { PairsAgree }
    ensures sheets { SheetsAgree }
    ensures outlines { OutlinesAgree }
    ensures scripts { ScriptsAgree }
    ensures certificates { CertificatesAgree }
{
    one_sheet();
    alike_sheets_mean_the_same();
    one_pair();
    alike_pairs_mean_the_same();
    alike_have_same_certificates();
}

/// Two runs that turn the same document by the same sheet write the same.
pub fn one_answer()
    ensures { OneAnswer }
{
    one_word();
    bytes_agree();
}

/// What a run wrote is turned back, by the same sheet, into the document that it read, with each
/// ignorable in its normal spelling.
pub fn translates_back()
    ensures { TranslatesBack }
{
    one_word();
    weights_are_exact();
    bytes_agree();
}

/// What `round` wrote, `round` writes again; and a document that was turned and turned back is turned
/// into the same document as before.
pub fn round_is_idempotent()
    ensures round { RoundIsIdempotent }
    ensures again { TranslatesAgain }
{
    one_word();
    weights_are_exact();
    bytes_agree();
}

/// By an accepted sheet a document is turned exactly where it is of the language, and is else refused
/// with its longest viable prefix.
pub fn refuses_exactly()
    ensures { RefusesExactly }
{
    one_word();
    weights_are_exact();
    bytes_agree();
}

/// Two runs that check a sheet tell the same of it: the same place, rule and line, weight, or suspect
/// but for its words; two runs by a sheet, whether they check it or not, tell the same place, or rule
/// and line, if one of them tells any; and once a check, with a certificate or without, or `prove` is done, no run
/// refuses the sheet, and each word of either language has at most one derivation.
pub fn check_decides()
    ensures one { OneVerdict }
    ensures flaws { OneFlaw }
    ensures decides { CheckDecides }
    ensures upgrades { CheckDecidesUpgrades }
    ensures certificates { CheckDecidesCertificates }
    ensures accepts { CheckAccepts }
{
    one_word();
    weights_are_exact();
    bytes_agree();
    one_sheet();
    alike_sheets_mean_the_same();
    one_pair();
    refused_once();
}

/// What `prove` wrote of a sheet is taken as its certificate by every check of that sheet. Of two
/// checks of a sheet by one certificate none refuses what the other takes, and both refuse it at the
/// same line.
pub fn certificates_decide()
    ensures taken { ProofIsTaken }
    ensures one { OneCertificate }
{
    one_word();
    weights_are_exact();
    bytes_agree();
}
