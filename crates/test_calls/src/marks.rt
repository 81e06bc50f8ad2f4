use std::alloc::{AllocError, Global};

/// So many bytes nothing else takes at once.
const MARK: usize = 7_654_321;

/// Asks for that many bytes and gives them back, so that who refuses allocations sees where a call begins and ends.
pub fn mark(alloc: Global) {
    let marked: Result<Vec<u8>, AllocError> = Vec::with_capacity(alloc, MARK);
    drop(marked);
}
