//! The life of one component: which step it runs next, which event it waits for, and what its end leads to. A component
//! moves by one table and by nothing else; `Component::step` is that table.
//!
//! The states and steps are those of the component lifecycle in the developer guide of AWS IoT Greengrass V2. Where the
//! guide leaves a detail open, the table decides.
//!
//! It promises the table exactly, row by row, and laws over all lives (`life_laws`). It stands on the steps and exits
//! of `nuc_base` alone.
#![tactic(auto)]

mod component;
mod kinds;
mod laws;

pub use component::Component;
pub use kinds::{After, LifeAct, LifeEvent, State, StepSet};
pub use laws::life_laws;
