//! Rows of the disk and of what is written on it: crashes, journals and their two slots, also while another program writes.
//!
//! It promises nothing of its own: it holds the tests of `disk_model`, `gate_log` and `checkpoint_log`, in a crate of
//! their own so that their libraries are not proved again for them. It stands on these three.
#![tactic(auto)]

#[cfg(test)]
mod beside;
#[cfg(test)]
mod disks;
#[cfg(test)]
mod logs;
#[cfg(test)]
mod slots;
