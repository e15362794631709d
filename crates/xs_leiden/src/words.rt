// The words of made texts.
ghost use Rattle.std.specs.Prelude.{◌≡◌, encode_utf8_all};
ghost use Rattle.xs_leiden.specs.Words.{word_at, dotted_at};

/// The word of a number, as it is and with a dot below, U+0323, after each letter; 7 and above have
/// the last.
#[tactic(auto, using(crate::proofs::Letters::two_bytes))]
pub fn word(number: u32) -> (&'static str, &'static str)
    ensures plain { result.0.now ≡ encode_utf8_all (word_at number) }
    ensures dotted { result.1.now ≡ encode_utf8_all (dotted_at number) }
{
    match number {
        0 => ("και", "κ\u{323}α\u{323}ι\u{323}"),
        1 => ("του", "τ\u{323}ο\u{323}υ\u{323}"),
        2 => ("θεου", "θ\u{323}ε\u{323}ο\u{323}υ\u{323}"),
        3 => ("ετους", "ε\u{323}τ\u{323}ο\u{323}υ\u{323}ς\u{323}"),
        4 => ("μηνος", "μ\u{323}η\u{323}ν\u{323}ο\u{323}ς\u{323}"),
        5 => ("δια", "δ\u{323}ι\u{323}α\u{323}"),
        6 => ("τον", "τ\u{323}ο\u{323}ν\u{323}"),
        _ => ("αυτου", "α\u{323}υ\u{323}τ\u{323}ο\u{323}υ\u{323}"),
    }
}
