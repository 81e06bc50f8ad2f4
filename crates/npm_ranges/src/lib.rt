//! Versions of Semantic Versioning 2.0.0 and ranges of them, in the language of npm's ranges.
//!
//! It promises that versions and ranges are read exactly where the grammar allows them (`specs/Grammar.antt`, from a
//! text to its comparators as they are written), that versions are in one total order, and that `Range::holds` is
//! exactly the relation of `specs/Ranges.antt`. It stands on `nuc_base` and on the versions of `semver`.
#![tactic(auto)]

mod comparator;
mod fault;
mod laws;
mod partial;
mod range;
mod read;
mod version;
mod words;

pub use fault::{RangeFault, VersionFault};
pub use laws::{
    build_text_has_no_effect, caret_and_tilde_hold_intervals, empty_range_holds_plain_versions,
    order_of_versions, spelled_comparators_are_read, two_bounds_hold_what_lies_between,
};
pub use range::{RANGE_LIMIT, Range};
pub use version::{VERSION_LIMIT, Version};
