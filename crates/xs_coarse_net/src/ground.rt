use crate::Whole;
use crate::site::Site;
use std::alloc::Global;

/// What covers are made from: a site, and the net that covers all rules of its grammar.
#[derive(Clone, Copy)]
pub(crate) struct Ground<'s> {
    pub alloc: Global,
    pub site: Site<'s>,
    pub whole: &'s Whole,
}
