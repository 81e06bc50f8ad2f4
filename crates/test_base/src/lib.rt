//! Rows of the values and trees that every crate shares: names, labels, pointers, copies, printed texts and documents.
//!
//! It promises nothing of its own: it holds the tests of `nuc_base` and of `tree_core`, in a crate of their own so that
//! their libraries are not proved again for them. It stands on these two.
#![tactic(auto)]

#[cfg(test)]
mod trees;
#[cfg(test)]
mod values;
