//! Worked rows of histories: short literal histories that are allowed, or an event that is refused where one ends.
//!
//! It promises that the worked rows are histories and the wrong bodies are none, on functions that do nothing, and that some
//! of them are whole histories of calls, so that no law of histories speaks of nothing. It stands on the definitions of
//! `histories` and on the laws of `law_histories`, and nothing stands on it.
#![tactic(auto)]

mod boot_call_rows;
mod boot_rows;
mod calls;
mod change_rows;
mod drive_rows;
mod record_rows;
mod run_rows;
mod serve_rows;
mod stand_rows;
mod stop_rows;
mod wait_rows;

pub use boot_call_rows::{
    bad_boot_row, boot_texts_row, closes_without_row, long_boot_row, stops_for_boots_row,
};
pub use boot_rows::{
    bootstrap_again_row, bootstrap_before_its_record, bootstraps_on_rollback_row,
    two_bootstraps_row,
};
pub use calls::rows_are_histories;
pub use change_rows::{
    comes_again, fails_no_more, failure_stops_others, failures_forgotten, newcomers_wait,
    outlives_its_shutdown, texts_change, two_handed_out,
};
pub use drive_rows::{
    calls_end, do_nothing_row, late_records, resumes_with_failures, rollback_row, rolls_early,
};
pub use record_rows::{forgets_at_close_row, gives_up_row, late_at_close_row, tries_again_row};
pub use run_rows::{hello_row, runner_refuses_row, skipif_row, starts_nothing, startup_limit_row};
pub use serve_rows::{
    early_dependent, failures_heard, one_at_a_time, serve_config_change_row, serve_nothing_row,
    serves_nothing, soft_needs,
};
pub use stand_rows::{
    installs_first_row, newer_texts_row, newer_version_row, skipped_startup_row, soft_broken_row,
    stays_broken_row, steady_failures_row,
};
pub use stop_rows::{
    fails_while_replaced_row, goes_away_row, needed_fails_row, needs_shut_row, newcomer_row,
};
pub use wait_rows::{
    document_comes_row, runs_and_closes_row, shuts_down_row, third_failure_row, turns_wait_row,
    two_start_row,
};
