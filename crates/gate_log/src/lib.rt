//! The gate journal: an entry is whole or not there, whenever a crash comes.
//!
//! The journal file holds entries one after another: a gate byte that is not 0, the payload's length in four big-endian
//! bytes, and the payload. Behind the last entry stands a gate byte 0; what follows it has no meaning.
//!
//! It promises that at each moment of `append` every image that a crash may leave has the entries before, with or
//! without the new one, and after Ok with it; and that each answer of `find` comes exactly where the file calls for it.
//! It stands on the trait `Disk` of `disk_model`, whatever disk that is.
#![tactic(auto)]

mod create;
mod entry;
mod find;
mod journal;
mod log;
mod reserve;

pub use entry::EntryFault;
pub use find::{FindFault, length_in};
pub use journal::Journal;
pub use log::{AppendFault, JOURNAL, Log, MOST_FILE, MOST_PAYLOAD, open_gate};
