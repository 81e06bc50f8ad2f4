//! Calls of the top call over disks, libraries, documents, inboxes and children in memory, which are written in a few words, and
//! rows of them, for the crates that test it.
//!
//! It promises of a runner that none of its children lives. Tests take their expected values from elsewhere.
#![tactic(auto)]

mod calls;
mod hello;
mod marks;
mod rows;

pub use calls::{
    Asked, Failing, answer, answer_alone, answer_failing, answer_with_inbox, begin, call,
    call_with, document_of, files_of, files_with, library_of, numbers_behind, recipes_of,
    runner_of, split_words, told,
};
pub use hello::{HELLO, hello_library};
pub use marks::mark;
pub use rows::{Caller, Store, first_wrong};
