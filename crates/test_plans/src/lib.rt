//! Documents with devices and libraries, what comes of them, and what is printed of that.
//!
//! It promises nothing of its own: it holds the tests of `plan_core` and of `refusal_lines`, in a crate of their own so that
//! their libraries are not proved again for them. It stands on these two.
#![tactic(auto)]

#[cfg(test)]
mod documents;
#[cfg(test)]
mod refusals;
