//! Rows of the workload: what a seed gives, and how the children of its runner end.
//!
//! It promises nothing of its own: it holds the tests of `workload`, in a crate of their own so that its library is not
//! proved again for them. It stands on `workload`.
#![tactic(auto)]

#[cfg(test)]
mod rows;
