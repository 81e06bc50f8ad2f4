//! The program `fleet`: a fleet of devices over a network that loses, repeats and reorders, driven by lines.
//!
//! It promises that what it prints and its status are what the definitions of `fleet_core` give of the whole input, each
//! status by its cause. It stands on `fleet_core`, and on `edges` for what it reads from and writes to.
#![tactic(auto)]

mod commands;
mod printing;
mod running;
#[cfg(test)]
mod tests;

use edges::{ReadSource, WriteSink};
use nuc_base::Status;
use running::fleet;
use std::alloc::{AllocError, Global};
use std::process::ExitCode;
use std::rt::Env;
use std::{env, io};

/// Words that are faulty, whatever they are: one more than the program's name.
fn faulty(alloc: Global) -> Result<Vec<String>, AllocError> {
    let mut words = Vec::with_capacity(alloc, 2)?;
    words.push(String::new(alloc))?;
    words.push(String::new(alloc))?;
    Ok(words)
}

/// The words of the command line. Words that are no text are faulty.
fn words<R: Env + AllocGlobal>(rt: &R) -> Result<Vec<String>, AllocError> {
    match env::args(rt) {
        Ok(args) => args.collect(rt.alloc()),
        Err(error) if error.kind() == io::ErrorKind::OutOfMemory => Err(AllocError),
        Err(_) => faulty(rt.alloc()),
    }
}

fn main(rt: HostRuntime) -> ExitCode {
    let mut source = ReadSource::new(rt.reader());
    let mut sink = WriteSink::new(io::writer(&rt));
    let status = match words(&rt) {
        Ok(words) => fleet(rt.alloc(), &words, &mut source, &mut sink),
        Err(_) => Status::Memory,
    };
    ExitCode::from(status.number())
}
