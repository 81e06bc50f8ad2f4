use crate::recipe::Recipe;
use nuc_base::Bytes;

/// A recipe that may be chosen, with the bytes that it was read from.
#[derive(Debug, Drop)]
pub struct Candidate {
    pub recipe: Recipe,
    pub bytes: Bytes,
}
