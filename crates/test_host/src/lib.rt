//! What the real objects make of a folder and of children.
//!
//! It promises nothing of its own: it holds the tests of the real objects and of `store_root`, in a crate of their own so that
//! their libraries are not proved again for them. It stands on these crates.
#![tactic(auto)]

#[cfg(test)]
mod artifacts;
#[cfg(test)]
mod children;
#[cfg(test)]
mod folders;
#[cfg(test)]
mod objects;
#[cfg(test)]
mod roots;
#[cfg(test)]
mod running;
#[cfg(test)]
mod steps;
#[cfg(test)]
mod stubborn;
#[cfg(test)]
mod words;
