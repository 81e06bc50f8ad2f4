//! Why no version exists: a certificate that no set of the candidates is valid, its checker and its text.
//!
//! It promises that `check` says yes exactly where a certificate stands, and that then no set is valid; and that `explain`
//! gives one wherever no set is valid, the plain one where that is small. A certificate splits on a required name and says
//! of each candidate of that name why it leads to nothing. `write_why` writes its lines to a sink and takes no memory. Which
//! sets are valid is said in `recipe_reader`, what a sink is in `edges`.
#![tactic(auto)]

mod checker;
mod choosing;
mod explainer;
mod explaining;
mod facts;
mod front;
mod laws;
mod lines;
mod loops;
mod reasons;
mod why;

pub use checker::check;
pub use explainer::explain;
pub use laws::certificate_laws;
pub use lines::write_why;
pub use why::Why;
