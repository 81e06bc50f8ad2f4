//! Why the loops that drive components end: where nothing may act, time can go on or all is done; and a number falls at
//! whatever happens. What is kept of components is enough for that, also where some are replaced, go away or are restarted
//! while others stand, and however many there are.
//!
//! It stands on the definitions of `components`, and takes from `law_supervisor` which stops may stand together.
#![tactic(auto)]

mod circle;
mod driving;
mod numbers;
mod rows;

pub use circle::waits_for_the_far_one;
pub use driving::{
    changes_drive, drives_end, drives_keep, drives_stop, none_drives, ready_items_may_come,
};
pub use numbers::{drives_fall, each_keeps, turns_calm, turns_fall};
pub use rows::{one_is_replaced, one_waits_for_another};
