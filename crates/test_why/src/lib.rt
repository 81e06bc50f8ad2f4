//! Certificates of small libraries and of large ones.
//!
//! It promises nothing of its own: it holds the tests of `why_not`, in a crate of their own so that their libraries are not
//! proved again for it. It stands on that crate.
#![tactic(auto)]

#[cfg(test)]
mod drawn;
#[cfg(test)]
mod large;
#[cfg(test)]
mod small;
#[cfg(test)]
mod texts;
