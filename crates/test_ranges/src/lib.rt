//! Tables of ranges and the versions that they hold, and of needs and the orders that they come to, worked out by hand from the
//! public standard and the definitions.
//!
//! It promises nothing of its own: it holds tests.
#![tactic(auto)]

#[cfg(test)]
mod orders;
#[cfg(test)]
mod ranges;
