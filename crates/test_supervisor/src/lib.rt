//! Tables of components, of what befalls them, and of what a supervisor then hands out.
//!
//! It promises nothing of its own: it holds the tests of `supervisor`, in a crate of their own so that its library is not
//! proved again for them. It stands on `supervisor`, and on `device` for items that a device takes.
#![tactic(auto)]

#[cfg(test)]
mod acts;
#[cfg(test)]
mod cases;
#[cfg(test)]
mod devices;
#[cfg(test)]
mod drawn;
#[cfg(test)]
mod model;
#[cfg(test)]
mod plain;
#[cfg(test)]
mod rows;
#[cfg(test)]
mod shapes;
#[cfg(test)]
mod steps;
