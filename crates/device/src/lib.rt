//! The device: what the records of a journal leave, and what it means for a journal to stand for one.
//!
//! `specs/Lawful.antt` is the table: which records a device takes and what each changes, row by row. `specs/After.antt`
//! says what remains where only accepted plans and their closings are looked at, and `specs/Standing.antt` for which
//! device a journal stands.
//!
//! It promises that `Device::apply` takes exactly the lawful records and changes nothing after a refusal, that `replay`
//! answers the device for which the journal stands or the place of the damage, and laws over whole runs. It stands on
//! `records` for what is stored, on `gate_log` for the journal, on `recipe_reader` and `dep_order` for plans and on
//! `interpolation` for scopes.
#![tactic(auto)]

mod apply;
mod backs;
mod closed;
mod device;
mod fault;
mod fronts;
mod groups;
mod laws;
mod limits;
mod mark;
mod marking;
mod marks;
mod named;
mod plan_needs;
mod plan_recipes;
mod plan_sizes;
mod plans;
mod rebuilding;
mod replaying;
mod scopes;
mod spare;
mod staged;
mod steps;

pub use closed::Closed;
pub use device::Device;
pub use fault::{ApplyFault, ReplayFault, RestoreFault};
pub use fronts::fronts_are_one;
pub use groups::Groups;
pub use laws::{
    devices_are_sound, met_devices_stay_met, none_is_stuck, revisions_rise,
    runs_give_the_plain_course,
};
pub use limits::{MOST_CLOSED, MOST_CONFIG, MOST_ELEMENTS, MOST_GROUPS};
pub use mark::Mark;
pub use plan_sizes::plans_are_short;
pub use records::Group;
pub use replaying::replay;
pub use scopes::scope_of;
pub use spare::Spare;
pub use staged::{Pending, Stage};
pub use steps::{broken_of, next_of, running_place};
