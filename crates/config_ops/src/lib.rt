//! What an update makes of a component's configuration: nodes set back to the default, a value merged in, and the
//! default's keys filled in (AWS IoT Greengrass V2 developer guide, "Update component configurations").
//!
//! It promises exactly the configurations of the definitions in `specs/`, regular ones, with laws on what stands at
//! each key and each node afterwards. It stands on the trees and pointers of `tree_core` and `nuc_base`.
#![tactic(auto)]

mod computed;
mod fields;
mod join;
mod laws;
mod resetting;
mod update;
mod walk;

pub use computed::new_config;
pub use join::{fill, merge};
pub use laws::{config_is_object, config_stays, join_laws, reset_laws};
pub use resetting::reset;
pub use update::Update;
