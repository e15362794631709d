//! Laws of the check of ambiguity, by a regular over-approximation of each nonterminal: without
//! vertical and horizontal ambiguity of it, a grammar is unambiguous.
//!
//! The criterion is that of Brabrand, Giegerich and Møller, Analyzing ambiguity of context-free
//! grammars, 2007; the over-approximation, whose words are called loose, is as by Mohri and
//! Nederhof, Regular approximation of context-free grammars through transformation, 2001. Groups that
//! fences enclose are called and returned from exactly. specs/ has the weights of stretches and
//! rules, acceptance, and which answer comes first where a sheet is refused.
//!
//! The laws: what any derivation spells is loose, level stretch by level stretch; where no word is
//! loose for two rules of one nonterminal, and none can be cut at two places of a rule, each word
//! has at most one derivation; a stretch has one weight; it is decided of each two nonterminals
//! whether they are of one component. Fences that are added take loose words and suspects away and
//! bring none, so what is accepted stays accepted, where no rule becomes too heavy.
#![tactic(auto)]

mod laws;

pub use laws::{
    accepted_is_unique, accepted_stays_accepted, components_are_decided,
    more_fences_make_fewer_suspects, no_suspect_is_unique, weights_are_exact, words_are_the_yield,
    yields_are_loose,
};
