//! Certificates that the two grammars of a sheet have no suspect: what they are, when they are right,
//! and what a right one shows.
//!
//! A certificate has, for each side, which groups of one fence share a word, and a block for each
//! other two groups of one fence, each two rules of one nonterminal, and each cut of each rule. A
//! block has sets of pairs of states of two nets whose states are numbered in one way. It is right
//! where its sets are closed, have the starts, and have no pair of two final states: a test of each
//! pair by itself, without a search. Two grammars that have a certificate, and no heavy rule, are
//! accepted.
//!
//! A certificate is of the sheet's bytes. A regular expression is read of a pattern, and two readings
//! may hold it in two ways; but the positions of its automaton, and which of them follow each other,
//! are fixed by the pattern, and so are the nets that certificates speak of. Pairs of grammars that
//! are alike and built have the same certificates, the same first bad line of what is none, and the
//! same certificate that is written.
//!
//! The statements stand in specs/. Each function here is a law, and does nothing when it runs.
#![tactic(auto)]

ghost use Rattle.xs_cert_laws.specs.Alike.{AlikeHaveSameCertificates};
ghost use Rattle.xs_cert_laws.specs.Laws.{CertifiedIsAccepted};

/// Two grammars whose rules are light and that have a certificate are accepted.
pub fn certified_is_accepted()
    ensures { CertifiedIsAccepted }
{}

/// Pairs of grammars that are alike, and built, have the same certificates.
pub fn alike_have_same_certificates()
    ensures { AlikeHaveSameCertificates }
{}
