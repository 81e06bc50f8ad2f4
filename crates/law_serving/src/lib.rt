//! Laws of one deployment in a call that serves, on functions that do nothing.
//!
//! It promises that what may happen of one deployment in a call of its own may happen so in a call that serves, which asks its
//! inbox no question meanwhile; that each component runs its item as the item's recipe says for the device's platform; and that
//! no deployment is driven where nothing is pending. It stands on the definitions of `histories`.
#![tactic(auto)]

mod laws;

pub use laws::{components_run_their_items, deployments_serve_alike, idle_calls_are_steady};
