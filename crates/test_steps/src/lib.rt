//! Rows of a component's life, of scripted children and of streams in memory.
//!
//! It promises nothing of its own: it holds the tests of `lifecycle`, `step_runner` and `edges`, in a crate of their own
//! so that their libraries are not proved again for them. It stands on these three.
#![tactic(auto)]

#[cfg(test)]
mod lives;
#[cfg(test)]
mod runners;
#[cfg(test)]
mod streams;
#[cfg(test)]
mod views;
