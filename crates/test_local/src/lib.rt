//! Requests made at the device, and what they make of devices.
//!
//! It promises nothing of its own: it holds the tests of `local_deploy` and of `config_cmd`, in a crate of their own so
//! that these are not proved again for them. It stands on these two and on the disk in memory.
#![tactic(auto)]

#[cfg(test)]
mod devices;
#[cfg(test)]
mod documents;
#[cfg(test)]
mod readings;
