//! Rows of the journal's records, and of the words of a command line.
//!
//! It promises nothing of its own: it holds the tests of `records` and of `command_words`, in a crate of their own so
//! that their libraries are not proved again for them. It stands on these two and on the values in the records.
#![tactic(auto)]

#[cfg(test)]
mod spellings;
#[cfg(test)]
mod words;
