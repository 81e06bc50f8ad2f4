use crate::children::ended;
use crate::objects::{FILE, lists, reads};
use disk_model::{Disk, DiskFault};
use host_children::ShellRunner;
use host_disk::{Access, FileDisk};
use nuc_base::{Exit, NoMemory};
use std::fs;
use std::os::unix::fs::MetadataExt;
use std::test::Fail;

/// Writes a whole file and makes it stable.
fn write_file<D: Disk>(disk: &mut D, file: &str, bytes: &[u8]) -> Result<(), DiskFault> {
    disk.write_at(file, 0, bytes)?;
    disk.sync(file)
}

/// What a child with this script ends with, of a runner of its own.
fn ends_with(rt: &HostRuntime, root: &str, script: &str) -> Result<Option<Exit>, NoMemory> {
    let mut runner = ShellRunner::new(rt, root);
    let exit = ended(rt.alloc(), &mut runner, root, script);
    drop(runner);
    exit
}

/// Whether a program that was just written is run, and again behind a reading of it.
fn runs_what_was_written<D: Disk>(
    rt: &HostRuntime,
    disk: &mut D,
    root: &str,
) -> Result<bool, Fail> {
    write_file(disk, FILE, b"#!/bin/sh\nexit 3\n")?;
    let script = "chmod 700 packages/artifacts/A/1.0.0/f && packages/artifacts/A/1.0.0/f";
    let written = ends_with(rt, root, script)?;
    let is_read = reads(disk, FILE, 10, b"exit 3\n")?;
    let read = ends_with(rt, root, script)?;
    Ok(is_read && written == Some(Exit::Code(3)) && read == Some(Exit::Code(3)))
}

#[test]
fn a_child_runs_what_was_written(rt: HostRuntime) -> Result<(), Fail> {
    let root = "program-of-a-test";
    fs::create_dir_all(&rt, root)?;
    let mut disk = FileDisk::new(&rt, root, Access::Write)?;
    let runs = runs_what_was_written(&rt, &mut disk, root);
    drop(disk);
    assert!(rt; runs?);
    fs::remove_dir_all(&rt, root)?;
    Ok(())
}

/// Whether a file goes on by zeros up to the place that room is asked for, with what it held in front, not where it does so
/// already, and not by its writes.
fn makes_room<D: Disk>(disk: &mut D) -> Result<bool, DiskFault> {
    disk.write_at("journal", 0, &[0, 7])?;
    let plain = disk.length("journal")?;
    disk.reserve("journal", 2_097_152)?;
    let first = disk.length("journal")?;
    disk.reserve("journal", 2_097_152)?;
    disk.write_at("journal", 1, &[9; 1_000])?;
    let again = disk.length("journal")?;
    disk.reserve("journal", first.saturating_add(1))?;
    let longer = disk.length("journal")?;
    let is_kept = reads(disk, "journal", 0, &[0, 9, 9, 9, 9, 9, 9, 9])?;
    let is_blank = reads(disk, "journal", first, &[0; 8])?;
    disk.sync("journal")?;
    Ok(plain == 2 && first >= 2_097_152 && again == first && longer > first && is_kept && is_blank)
}

#[test]
fn a_disk_makes_room(rt: HostRuntime) -> Result<(), Fail> {
    let root = "room-of-a-test";
    fs::create_dir_all(&rt, root)?;
    let mut disk = FileDisk::new(&rt, root, Access::Write)?;
    let is_made = makes_room(&mut disk) == Ok(true);
    drop(disk);
    let metadata = fs::metadata(&rt, "room-of-a-test/journal")?;
    let is_held = metadata.blocks().saturating_mul(512) >= metadata.len();
    fs::remove_dir_all(&rt, root)?;
    assert!(rt; is_made && is_held);
    Ok(())
}

/// Makes names that are no text, a link and a file by them, a folder of such a name with others in it, and folders in one
/// another whose path no call of the system takes.
const STRAYS: &str =
    "cd packages/artifacts/A/1.0.0 && name=$(printf 'n\\344me') && echo x > \"$name\" \
    && ln -s ../../../../kept \"$name.link\" && mkdir -p \"$name.folder/$name/plain\" && echo x > \"$name.folder/$name/$name\" \
    && long=$(printf '%0200d' 0) && chain=$long/$long/$long/$long/$long/$long/$long/$long/$long/$long \
    && mkdir -p a/$chain b/$chain c/$chain && echo x > c/$chain/f && mv c b/$chain && mv b a/$chain && mv a ../..";

/// What is to be there behind that: the file outside, and of the artifacts the one that was written.
const LEFT: &str =
    "cat kept && test \"$(ls -A packages/artifacts)\" = A && test \"$(ls -A packages/artifacts/A/1.0.0)\" = f";

/// Whether such names are removed, and nothing else.
fn removes_what_it_cannot_name<D: Disk>(
    rt: &HostRuntime,
    disk: &mut D,
    root: &str,
) -> Result<bool, Fail> {
    write_file(disk, FILE, b"xyz")?;
    let made = ends_with(rt, root, STRAYS)?;
    let are_removed = lists(rt.alloc(), disk, &[FILE]) && lists(rt.alloc(), disk, &[FILE]);
    let left = ends_with(rt, root, LEFT)?;
    Ok(made == Some(Exit::Code(0)) && are_removed && left == Some(Exit::Code(0)))
}

#[test]
fn a_disk_removes_what_it_cannot_name(rt: HostRuntime) -> Result<(), Fail> {
    let root = "names-of-a-test";
    fs::create_dir_all(&rt, root)?;
    fs::write(&rt, "names-of-a-test/kept", "x")?;
    let mut disk = FileDisk::new(&rt, root, Access::Write)?;
    let are_removed = removes_what_it_cannot_name(&rt, &mut disk, root);
    drop(disk);
    assert!(rt; are_removed?);
    fs::remove_dir_all(&rt, root)?;
    Ok(())
}

/// Another file of an artifact.
const OTHER: &str = "packages/artifacts/B/1.0.0/g";

/// Puts a name that is no text beside the first artifact, and keeps everybody from removing what stands there: others than
/// root by the folder's mode, and root by a mark of the files, where the file system has it.
const HOLD: &str =
    "mkdir logs && cd packages/artifacts/A/1.0.0 && name=$(printf 'n\\344me') && echo x > \"$name\" \
    && chmod 555 . && { chattr +i f \"$name\" || true; }";

/// Whether somebody else is kept from removing it too: ends with 0 where that is so.
const TRY: &str = "! rm -f packages/artifacts/A/1.0.0/f";

/// What is to be there then: what is held, and nothing else of the artifacts, and a line of the log for each of the two.
const HELD: &str =
    "test \"$(cat packages/artifacts/A/1.0.0/f)\" = xyz && test \"$(ls -A packages/artifacts)\" = A \
    && test \"$(ls -A packages/artifacts/A/1.0.0 | wc -l)\" -eq 2 && grep -q 'not-removed \"packages/artifacts/A/1.0.0/f\": ' logs/events \
    && grep -q 'not-removed \"packages/artifacts/A/1.0.0/n.*me\": ' logs/events";

/// Lets everything be removed again.
const RELEASE: &str = "cd packages/artifacts/A/1.0.0 && chmod 755 . && { chattr -i * || true; }";

/// Whether a sweep removes what it may, twice, and whatever was held once it is released. The faults of the disk would end it.
fn removes_what_it_may<D: Disk>(rt: &HostRuntime, disk: &mut D, root: &str) -> Result<bool, Fail> {
    let alloc = rt.alloc();
    let are_listed = lists(alloc, disk, &[FILE, OTHER]);
    disk.remove(FILE)?;
    disk.remove(OTHER)?;
    let stays = lists(alloc, disk, &[FILE]) && disk.remove(FILE).is_ok();
    let held = ends_with(rt, root, HELD)?;
    let released = ends_with(rt, root, RELEASE)?;
    let is_removed = disk.remove(FILE).is_ok() && lists(alloc, disk, &[]);
    Ok(
        are_listed
            && stays
            && held == Some(Exit::Code(0))
            && released == Some(Exit::Code(0))
            && is_removed,
    )
}

/// Whether that is so of two files of which the first is held. Where nothing holds it, as it may be for root, nothing is
/// asked.
fn passes_over_what_is_held<D: Disk>(
    rt: &HostRuntime,
    disk: &mut D,
    root: &str,
) -> Result<bool, Fail> {
    write_file(disk, FILE, b"xyz")?;
    write_file(disk, OTHER, b"uvw")?;
    let made = ends_with(rt, root, HOLD)?;
    let tried = ends_with(rt, root, TRY)?;
    let is_held = tried == Some(Exit::Code(0));
    Ok(made == Some(Exit::Code(0)) && (!is_held || removes_what_it_may(rt, disk, root)?))
}

#[test]
fn a_sweep_passes_over_what_it_may_not_remove(rt: HostRuntime) -> Result<(), Fail> {
    let root = "held-of-a-test";
    fs::create_dir_all(&rt, root)?;
    let mut disk = FileDisk::new(&rt, root, Access::Write)?;
    let is_passed = passes_over_what_is_held(&rt, &mut disk, root);
    drop(disk);
    assert!(rt; is_passed?);
    fs::remove_dir_all(&rt, root)?;
    Ok(())
}
