//! The folder that a journal names, over real files.
use edges::MemorySink;
use host_disk::{Access, FileDisk};
use host_files::is_same_folder;
use nuc_base::{List, Status};
use std::fs;
use std::os::unix::fs::symlink;
use std::test::Fail;
use store_root::{refuse_moved, root_in};

const ROOT: &str = "roots-of-a-test";

/// The journal of a store that was made as thing `t1` in `/gg`: one record of a store's beginning, and a closed gate.
const MADE: &[u8] =
    b"\x01\x00\x00\x00\x2a\x11\x00\x00\x00\x03/gg\x00\x00\x00\x02t1\x00\x00\x00\x062.12.0\x00\x00\x00\x05linux\x00\x00\x00\x05amd64\x00";

/// The same store, in the second slot, once its journal was begun anew as number 1, in `/hh` and with nothing in it.
const TURNED: &[u8] = b"\x01\x00\x00\x00\x3e\x19\x00\x00\x00\x00\x00\x00\x00\x01\
        \x00\x00\x00\x03/hh\x00\x00\x00\x02t1\x00\x00\x00\x062.12.0\x00\x00\x00\x05linux\x00\x00\x00\x05amd64\
        \x00\x00\x00\x00\x00\x00\x00\x00\x00\x00\x00\x00\x00";

/// Whether the store names this folder.
fn names(rt: &HostRuntime, folder: Option<&str>) -> Result<bool, Fail> {
    let mut disk = FileDisk::new(rt, ROOT, Access::Read)?;
    let root = root_in(rt.alloc(), &mut disk);
    drop(disk);
    Ok(match root {
        Ok(Some(root)) => folder == Some(root.as_str()),
        Ok(None) => folder.is_none(),
        Err(_) => false,
    })
}

/// Whether the live slot is asked, and a journal without an entry or with a damaged one names none.
fn are_named(rt: &HostRuntime) -> Result<bool, Fail> {
    let journal = "roots-of-a-test/journal";
    let is_none = names(rt, None)?;
    fs::write(rt, journal, MADE)?;
    let is_made = names(rt, Some("/gg"))?;
    fs::write(rt, "roots-of-a-test/journal.b", TURNED)?;
    let is_turned = names(rt, Some("/hh"))?;
    fs::remove_file(rt, "roots-of-a-test/journal.b")?;
    fs::write(rt, journal, &MADE[..47])?;
    Ok(is_none && is_made && is_turned && names(rt, None)?)
}

#[test]
fn the_live_slot_names_the_folder_of_a_store(rt: HostRuntime) -> Result<(), Fail> {
    fs::create_dir_all(&rt, ROOT)?;
    assert!(rt; are_named(&rt)?);
    fs::remove_dir_all(&rt, ROOT)?;
    Ok(())
}

/// Whether a folder is the same by a link and by another spelling, and no other is.
fn are_told_apart(rt: &HostRuntime) -> bool {
    is_same_folder(rt, "places-of-a-test/gg", "places-of-a-test/hh")
        && is_same_folder(
            rt,
            "places-of-a-test/gg/",
            "places-of-a-test/../places-of-a-test/gg",
        )
        && !is_same_folder(rt, "places-of-a-test/gg", "places-of-a-test/ii")
        && !is_same_folder(rt, "places-of-a-test/gg", "places-of-a-test/none")
        && !is_same_folder(rt, "places-of-a-test/none", "places-of-a-test/none")
        && !is_same_folder(rt, "places-of-a-test/file", "places-of-a-test/file")
}

#[test]
fn a_folder_is_known_by_what_it_is(rt: HostRuntime) -> Result<(), Fail> {
    fs::create_dir_all(&rt, "places-of-a-test/gg")?;
    fs::create_dir_all(&rt, "places-of-a-test/ii")?;
    fs::write(&rt, "places-of-a-test/file", "x")?;
    symlink(&rt, "gg", "places-of-a-test/hh")?;
    assert!(rt; are_told_apart(&rt));
    fs::remove_dir_all(&rt, "places-of-a-test")?;
    Ok(())
}

#[test]
fn a_moved_store_is_refused_by_a_line(rt: HostRuntime) -> Result<(), Fail> {
    let mut sink = MemorySink::new(rt.alloc(), List::empty(rt.alloc()));
    let status = refuse_moved("/gg", &mut sink);
    let is_told = sink.bytes() == b"refused 21 Moved /gg\n".as_slice();
    drop(sink);
    assert!(rt; is_told && status == Status::Moved && status.number() == 21);
    Ok(())
}
