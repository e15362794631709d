//! Laws of Earley items and sets: what a chart has that is closed under predicting, scanning and
//! completing, and what it says of its document.
//!
//! An Earley item is a dotted rule and an origin, and it stands in a set where what stands before
//! its dot spells the document from the origin up to there. The definitions stand in specs/: Closed
//! says when whatever the items of some sets lead to is in the sets, and how far the document is
//! read by them; Steps says the same of one item, which predicts, scans or completes; Charts says
//! which sets are the chart of a document, and what its waiting lists are. Each function here is a
//! law, and does nothing when it runs. A recogniser is proved by the lemmas of proofs/: what an item
//! that stands leads to stands (Steps), and sets whose items are all settled are the chart
//! (Settling).
#![tactic(auto)]

mod laws;

pub use laws::{
    chart_has_standing, closed_is_chart, closed_is_complete, farthest_is_viable, reached_is_front,
    recogniser_closes, standing_is_closed, whole_is_in_language,
};
