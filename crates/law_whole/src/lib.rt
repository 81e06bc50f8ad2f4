//! Laws of devices whose set is what their groups ask for, and nothing besides.
//!
//! It promises that a device stays so along each run and whatever document is taken in; that over such a device, without
//! any library, its own set is chosen again and needs no file; and what a plan leaves of the groups. It stands on `admission`
//! for plans that are taken in and on what that stands on.
#![tactic(auto)]

mod laws;

pub use laws::{
    changes_keep_groups, groups_stay, own_sets_are_chosen, plans_are_whole, requests_keep_the_rest,
    whole_devices_stay_whole,
};
