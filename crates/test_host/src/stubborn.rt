//! A system whose steps live on when they are killed, which refuses some starts, and on whose clock time goes fast.

use std::alloc::{Allocator, Global};
use std::cell::Cell;
use std::env::{Env, FillError};
use std::fs::{File, Files, Metadata, OpenOptions};
use std::path::PathBuf;
use std::process::{
    Child, ChildStderr, ChildStdin, ChildStdout, Command, ExitStatus, OpenProcess, Processes, Stdio,
};
use std::time::{Clock, Duration};
use std::{io, thread};

/// How many seconds a step lives on at most that is waited for without a limit, so that a test ends.
const LIFE: u64 = 20;

#[derive(Drop)]
pub struct Stubborn<'a> {
    pub rt: &'a HostRuntime,
    /// Whether steps live on.
    pub lives_on: bool,
    /// How many starts are still refused.
    pub refusals: Cell<u64>,
    /// How many times as fast the clock goes.
    pub speed: u32,
}

/// A child. One that lives on is told to live whatever the system says.
#[derive(Drop)]
pub struct StubbornChild<'a> {
    rt: &'a HostRuntime,
    child: Child,
    lives_on: bool,
}

impl<'a> OpenProcess for StubbornChild<'a> {
    type Stdin = ChildStdin;

    type Stdout = ChildStdout;

    type Stderr = ChildStderr;

    fn id(&self) -> u32 {
        self.child.id()
    }

    fn wait(&mut self) -> io::Result<ExitStatus> {
        if self.lives_on {
            thread::sleep(self.rt, Duration::from_secs(LIFE));
        }
        self.child.wait()
    }

    fn try_wait(&mut self) -> io::Result<Option<ExitStatus>> {
        if self.lives_on {
            return Ok(None);
        }
        self.child.try_wait()
    }

    fn kill(&mut self) -> io::Result<()> {
        self.child.kill()
    }
}

impl<'a> Processes for Stubborn<'a> {
    type Started = StubbornChild<'a>;

    fn spawn<B: Allocator + Clone>(
        &self,
        command: &Command<B>,
        stdin: &Stdio,
        stdout: &Stdio,
        stderr: &Stdio,
    ) -> io::Result<Child<StubbornChild<'a>>> {
        let refusals = self.refusals.get();
        if refusals > 0 {
            self.refusals.set(refusals - 1);
            return Err(io::Error::from_raw_os_error(libc::EAGAIN));
        }
        let child = self.rt.spawn(command, stdin, stdout, stderr)?;
        let child = StubbornChild {
            rt: self.rt,
            child,
            // What ends others has no folder of its own.
            lives_on: self.lives_on && command.get_current_dir().is_some(),
        };
        Ok(Child::from_parts(child, None, None, None))
    }
}

impl<'a> Alloc for Stubborn<'a> {
    type A = Global;

    fn alloc(&self) -> Global {
        self.rt.alloc()
    }
}

impl<'a> Clock for Stubborn<'a> {
    fn monotonic(&self) -> io::Result<Duration> {
        Ok(self.rt.monotonic()?.saturating_mul(self.speed))
    }

    fn since_1970(&self) -> io::Result<Duration> {
        self.rt.since_1970()
    }

    fn sleep(&self, duration: Duration) {
        self.rt.sleep(duration)
    }
}

impl<'a> Env for Stubborn<'a> {
    fn arg(&self, i: usize, buf: &mut [u8]) -> Result<usize, FillError> {
        self.rt.arg(i, buf)
    }

    fn var(&self, name: &str, buf: &mut [u8]) -> Result<usize, FillError> {
        self.rt.var(name, buf)
    }

    fn var_at(&self, i: usize, buf: &mut [u8]) -> Result<usize, FillError> {
        self.rt.var_at(i, buf)
    }
}

impl<'a> Files for Stubborn<'a> {
    type File = File;

    type Dir = <HostRuntime as Files>::Dir;

    fn open_file(&self, how: &OpenOptions, path: &str) -> io::Result<File> {
        self.rt.open_file(how, path)
    }

    fn open_dir(&self, path: &str) -> io::Result<<HostRuntime as Files>::Dir> {
        self.rt.open_dir(path)
    }

    fn metadata(&self, path: &str) -> io::Result<Metadata> {
        self.rt.metadata(path)
    }

    fn symlink_metadata(&self, path: &str) -> io::Result<Metadata> {
        self.rt.symlink_metadata(path)
    }

    fn copy(&self, from: &str, to: &str) -> io::Result<u64> {
        Files::copy(self.rt, from, to)
    }

    fn rename(&self, from: &str, to: &str) -> io::Result<()> {
        self.rt.rename(from, to)
    }

    fn remove_file(&self, path: &str) -> io::Result<()> {
        self.rt.remove_file(path)
    }

    fn create_dir(&self, path: &str) -> io::Result<()> {
        self.rt.create_dir(path)
    }

    fn remove_dir(&self, path: &str) -> io::Result<()> {
        self.rt.remove_dir(path)
    }

    fn remove_dir_all<B: Allocator>(&self, alloc: B, path: &str) -> io::Result<()> {
        self.rt.remove_dir_all(alloc, path)
    }

    fn read_link<B: Allocator>(&self, alloc: B, path: &str) -> io::Result<PathBuf<B>> {
        self.rt.read_link(alloc, path)
    }

    fn create_dir_with_mode(&self, path: &str, mode: u32) -> io::Result<()> {
        self.rt.create_dir_with_mode(path, mode)
    }
}
