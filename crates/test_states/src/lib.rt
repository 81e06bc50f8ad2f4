//! Deployments that succeed, stay and are rolled back, over both journals and over disks that stop.
//!
//! It promises nothing of its own: it holds the tests of `deploy_state`, in a crate of their own so that its library is not
//! proved again for them. It stands on `deploy_state`, on both journals and on the disks in memory.
#![tactic(auto)]

#[cfg(test)]
mod driving;
#[cfg(test)]
mod offers;
#[cfg(test)]
mod room;
#[cfg(test)]
mod stores;
#[cfg(test)]
mod walks;
