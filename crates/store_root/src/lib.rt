//! What a journal tells without being replayed: the folder that its store was made in, and the refusal of a store that is not
//! there; how many records it holds, and the first whose kind this program does not know.
//!
//! Steps run in the folder that the first entry of the live slot names, whatever folder the store is opened in: a copy of a
//! store, or one that was moved, would run its steps in the first one's folders. A program of before cannot replay what a newer
//! one wrote, and a store that it takes for damaged is whole. It promises that `root_in` gives that folder and `count_records` these
//! records, and that the refusals print their line. It stands on `checkpoint_log` for the live slot and on `records` for its
//! records.
#![tactic(auto)]

mod refusal;
mod root;
mod tally;

pub use refusal::{refuse_moved, refuse_unread};
pub use root::{RootFault, root_in};
pub use tally::{Tally, UnknownRecord, count_records};
