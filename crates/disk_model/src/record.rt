// The record of the calls that changed a disk in memory.
use nuc_base::{Bytes, FileName};

/// A call that changed a file, or made it stable. A removal is a cut to nothing.
#[derive(Drop)]
pub enum Call {
    Write(FileName, usize, Bytes),
    Cut(FileName, usize),
    Sync(FileName),
}
