//! The top call of the nucleus: what the words of a command line ask, done over the devices that the call is given.
//!
//! It promises, in the one contract of `nucleus` and over every disk, source and sink, when each status comes, what is
//! printed, what the disk holds afterwards and what a crash may leave at each moment; and of the commands that drive a
//! deployment, over every runner, what happens in their call. Laws say what holds however many calls are made, each over
//! what the one before it left. It stands on `command_words` for what words ask, on `deploy_state` over `checkpoint_log` for
//! the store and on `store_root` for what is told of a journal unreplayed, on `status_text` for its status, on `artifact_store`
//! for its files, on `plan_core` and `refusal_lines` for plans, on `session` and `session_serving` over `supervisor` for what is
//! driven, and on `edges`, `disk_model`, `library_core` and `step_runner` for the devices.
#![tactic(auto)]

mod about;
mod answer;
mod asking;
mod auditing;
mod component_lines;
mod config_getting;
mod driving;
mod explanation;
mod init;
mod laws;
mod looking;
mod opening;
mod planning;
mod serving;
mod status;
mod top;
mod why;
mod workload_run;

pub use laws::{
    a_first_call_begins, calls_complete, calls_go_on, calls_reopen, calls_run_on,
    journals_stay_small, nothing_is_lost, requests_move_what_they_name,
};
pub use top::nucleus;
