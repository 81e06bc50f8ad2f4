//! Small libraries and large ones, and the preferred set of each.
//!
//! It promises nothing of its own: it holds the tests of `conflict_search` and of `resolver`, in a crate of their own so
//! that their libraries are not proved again for them. It stands on these two.
#![tactic(auto)]

#[cfg(test)]
mod draw;
#[cfg(test)]
mod drawn;
#[cfg(test)]
mod families;
#[cfg(test)]
mod libraries;
#[cfg(test)]
mod plain;
#[cfg(test)]
mod slow;
#[cfg(test)]
mod valid;
