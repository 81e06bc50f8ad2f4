//! A disk of named files: what each file reads as, and what a crash may leave of it, between calls or inside one.
//!
//! It promises, of the trait `Disk` and of the disks in memory that meet it, which images a crash may leave at each
//! moment; what was synced is in all of them. It stands on `nuc_base` alone.
#![tactic(auto)]

mod disk;
mod files;
mod fuse;
mod fused;
mod half;
mod image;
mod laws;
mod memory;
mod record;

pub use disk::{Disk, DiskFault, ListFault};
pub use fused::FusedDisk;
pub use image::Pick;
pub use laws::steps_are_one_sentence;
pub use memory::MemoryDisk;
