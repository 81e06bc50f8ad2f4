//! The files of artifacts: taking in those of a new plan, removing those that nothing needs, and comparing them with
//! the digests that are kept.
//!
//! It promises that staging and sweeping never touch a file that the device needs, whatever a crash leaves of them, and
//! that after staging the plan's files have the plan's digests (`specs/Holding.antt`).
#![tactic(auto)]

mod audits;
mod copies;
mod fault;
mod laws;
mod paths;
mod stages;
mod sweeps;

pub use audits::audit;
pub use fault::{AuditFault, StageFault, SweepFault};
pub use laws::needed_files_stay;
pub use paths::file_name;
pub use stages::stage;
pub use sweeps::sweep;
