use nuc_base::NoMemory;
use std::alloc::Global;
use std::fs::{File, Files, OpenOptions};
use std::io;
use std::os::fd::AsRawFd;

/// The last descriptor of a standard stream.
const LAST_STREAM: i32 = 2;

/// Holds the descriptors of those standard streams that the program was started without, so that no stored file gets one
/// of them and a printed line never goes into it. A read of such an input and a write to such an output still fail.
#[derive(Drop)]
pub struct HeldStreams {
    held: Vec<File>,
}

impl HeldStreams {
    pub fn new(alloc: Global) -> Result<HeldStreams, NoMemory> {
        Ok(HeldStreams {
            held: Vec::with_capacity(alloc, 3)?,
        })
    }

    /// Takes each free descriptor of a stream.
    pub fn hold<R: Files<File = File>>(&mut self, files: &R) -> io::Result<()> {
        for _ in 0..=LAST_STREAM {
            let output = null(files, false)?;
            if output.as_raw_fd() > LAST_STREAM {
                break;
            }
            if output.as_raw_fd() == 0 {
                self.held.push(output)?;
            } else {
                drop(output);
                self.held.push(null(files, true)?)?;
            }
        }
        Ok(())
    }
}

/// The null device, for reading alone or for writing alone.
fn null<R: Files<File = File>>(files: &R, reads: bool) -> io::Result<File> {
    OpenOptions::new()
        .read(reads)
        .write(!reads)
        .open(files, "/dev/null")
}
