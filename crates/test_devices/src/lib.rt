//! Tables of records, journals and plans, and what they make of a device.
//!
//! It promises nothing of its own: it holds the tests of `device` and of `status_text`, in a crate of their own so that
//! their libraries are not proved again for them. It stands on these two and on the disk in memory.
#![tactic(auto)]

#[cfg(test)]
mod fronts;
#[cfg(test)]
mod histories;
#[cfg(test)]
mod marks;
#[cfg(test)]
mod scopes;
#[cfg(test)]
mod statuses;
