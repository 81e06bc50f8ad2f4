//! Records of the journal, each with one spelling.
//!
//! `specs/Layout.antt` lays out each record, a line for each field, over the codecs of `specs/Codec.antt`. The trait
//! `Coded` is the same in code: a writer and a reader for each field, and over them those of the structures. So a
//! further field is a line in the layout, in the writer and in the reader.
//!
//! It promises that a record is written as its spelling, that reading answers the record that all of the bytes spell or
//! that they spell none, and that no two records share a spelling (`bytes_spell_one_record`). It stands on `tree_core`
//! for configurations and on `npm_ranges` for versions and ranges.
#![tactic(auto)]

mod coded;
mod fields;
mod laws;
mod numbers;
mod record;
mod records;
mod stop;
mod texts;

pub use laws::bytes_spell_one_record;
pub use record::{Draft, DraftItem, Group, Held, Item, Origin, Plan, Record, Requirement};
