use crate::names::Names;
use recipe_reader::{Candidate, Wanted};
use std::alloc::Global;

/// What a search goes over.
#[derive(Clone, Copy, Drop)]
pub(crate) struct Library<'a> {
    pub(crate) alloc: Global,
    pub(crate) candidates: &'a [Candidate],
    pub(crate) wanted: &'a [Wanted],
    pub(crate) names: &'a Names,
}
