//! Certificates in place of the search for suspects: `prove` writes one for grammars that are
//! accepted, and `certify` tests one, row by row.
//!
//! The test is local: each row of each set is looked at by itself, with the edges, moves and calls
//! that lead from its pairs. What it takes grows with the certificate and the nets, in memory with
//! one block's sets.
#![tactic(auto)]

mod basis;
mod blocks;
mod certified;
mod certifying;
mod fault;
mod half;
mod heads;
mod kept;
mod laws;
mod place;
mod proving;
mod relating;
mod sets;
mod sharing;
mod titles;
mod weighing;
mod writer;

pub use certified::Certified;
pub use certifying::certify;
pub use fault::CertFault;
pub use laws::proof_passes;
pub use proving::{ProveFault, prove};
pub use weighing::weigh;
