//! Artifacts that are staged, swept and audited, and what a stop at each call leaves of them.
//!
//! It promises nothing of its own: it holds the tests of `artifact_store`, in a crate of their own so that its library is not
//! proved again for them. It stands on `artifact_store` and on the disks and the library in memory.
#![tactic(auto)]

#[cfg(test)]
mod files;
