ghost use Rattle.std.specs.Prelude.{◌≡◌, [], ◌∷◌, IfOk};
ghost use Rattle.records.specs.Stored.{draft_item_view};
ghost use Rattle.artifact_store.specs.Paths.{IsNamedDraft};
ghost use Rattle.artifact_store.specs.Staged.{HasItsFiles};

use artifact_store::{stage, sweep};
use device::Device;
use disk_model::Disk;
use host_children::ShellRunner;
use host_disk::{Access, FileDisk};
use host_edges::FolderLibrary;
use library_core::Library;
use npm_ranges::Version;
use nuc_base::{Artifact, Bytes, Label, List, Name, NoMemory, Policy, Text};
use records::{Draft, DraftItem};
use std::alloc::{AllocError, Global};
use std::fs;
use std::os::unix::fs::symlink;
use std::test::Fail;
use step_runner::{Command, Runner, Waited};
use tree_core::Tree;

/// How many bytes the staged artifact has, more than three pieces.
const COUNT: usize = 200_000;

/// The SHA-256 (FIPS 180-4) of the 200,000 bytes that count up to 250 over and over, by another program.
const DIGEST: [u8; 32] = [
    0xe2, 0x4b, 0xc6, 0x23, 0x81, 0xf1, 0x22, 0x4f, 0xbb, 0xb7, 0x46, 0x88, 0x66, 0x3f, 0x8f, 0x97,
    0x43, 0xb9, 0x68, 0x0b, 0x19, 0x3e, 0xdd, 0x66, 0x68, 0x35, 0xe9, 0x7b, 0x06, 0xe7, 0x30, 0xeb,
];

/// These bytes. They differ from those 65,536 places before.
fn counted_bytes(alloc: Global) -> Result<Vec<u8>, AllocError> {
    let mut bytes = Vec::with_capacity(alloc, COUNT)?;
    for at in 0..COUNT {
        bytes.push((at % 251) as u8)?;
    }
    Ok(bytes)
}

/// `A` in version 1.0.0 with the artifact `f`, whose recipe gives that digest.
fn draft_item(alloc: Global) -> Result<DraftItem, Fail>
    ensures named { IfOk result (λ i. IsNamedDraft (draft_item_view i)) }
    ensures differ { IfOk result (λ i. HasItsFiles (draft_item_view i)) }
{
    let artifact = Artifact {
        file: Label::read(alloc, b"f")?,
        digest: Some(DIGEST),
    };
    let mut artifacts = List::empty(alloc);
    artifacts.push(artifact)?;
    Ok(DraftItem {
        name: Name::read(alloc, b"A")?,
        version: Version::read(alloc, b"1.0.0")?,
        recipe: Bytes::from_slice(alloc, b"")?,
        config: Tree::Fields(Vec::new(alloc)),
        artifacts,
    })
}

/// The draft of that item.
fn draft_of(alloc: Global, item: DraftItem) -> Result<Draft, Fail>
    ensures { IfOk result (λ d. d.items ≡ item ∷ []) }
{
    let mut items = List::empty(alloc);
    items.push(item)?;
    Ok(Draft {
        id: Label::read(alloc, b"d1")?,
        group: Label::read(alloc, b"g")?,
        revision: 1,
        policy: Policy::Rollback,
        requirements: List::empty(alloc),
        items,
        boots: List::empty(alloc),
    })
}

/// Whether that draft's file is taken in, on a device that has no items.
fn is_staged<D: Disk, L: Library>(
    alloc: Global,
    disk: &mut D,
    library: &mut L,
) -> Result<bool, Fail> {
    let item = draft_item(alloc)?;
    let draft = draft_of(alloc, item)?;
    let kept = List::empty(alloc);
    let staged = stage(alloc, disk, library, &kept, draft).is_ok();
    drop(kept);
    Ok(staged)
}

/// The same between the real objects over a folder.
fn is_taken_in(rt: &HostRuntime, root: &str) -> Result<bool, Fail> {
    let mut library = FolderLibrary::new(rt, root)?;
    let mut disk = FileDisk::new(rt, root, Access::Write)?;
    let is_staged = is_staged(rt.alloc(), &mut disk, &mut library);
    drop(disk);
    drop(library);
    is_staged
}

/// Whether the library's file with these bytes is taken in whole.
fn stages(rt: &HostRuntime, root: &str, bytes: &[u8]) -> Result<bool, Fail> {
    fs::write(rt, "pieces-of-a-test/library/artifacts/A/1.0.0/f", bytes)?;
    let is_taken = is_taken_in(rt, root)?;
    let staged = fs::read(rt, "pieces-of-a-test/packages/artifacts/A/1.0.0/f")?;
    Ok(is_taken && staged.as_slice() == bytes)
}

#[test]
fn an_artifact_of_four_pieces_is_staged_whole(rt: HostRuntime) -> Result<(), Fail> {
    let root = "pieces-of-a-test";
    fs::create_dir_all(&rt, "pieces-of-a-test/library/artifacts/A/1.0.0")?;
    let bytes = counted_bytes(rt.alloc())?;
    let is_staged = stages(&rt, root, bytes.as_slice());
    drop(bytes);
    assert!(rt; is_staged?);
    fs::remove_dir_all(&rt, root)?;
    Ok(())
}

/// Makes a pipe in the folder.
fn make_pipe<R: Runner>(alloc: Global, runner: &mut R, folder: &str) -> Result<bool, NoMemory> {
    let command = Command {
        script: Text::from_str(alloc, "mkfifo pipe")?,
        env: List::empty(alloc),
        folder: Text::from_str(alloc, folder)?,
    };
    Ok(runner.start(&command).is_ok() && runner.wait(10_000) != Waited::Elapsed)
}

/// Whether a sweep for a device without components leaves nothing.
fn is_swept<D: Disk>(alloc: Global, disk: &mut D) -> bool {
    let device = Device::empty(alloc);
    let swept = sweep(alloc, disk, &device).is_ok();
    drop(device);
    swept
}

#[test]
fn a_sweep_removes_links_pipes_and_empty_files(rt: HostRuntime) -> Result<(), Fail> {
    let alloc = rt.alloc();
    let root = "sweep-of-a-test";
    let folder = "sweep-of-a-test/packages/artifacts/A/1.0.0";
    fs::create_dir_all(&rt, folder)?;
    fs::write(&rt, "sweep-of-a-test/packages/artifacts/A/1.0.0/empty", "")?;
    symlink(
        &rt,
        "no-such",
        "sweep-of-a-test/packages/artifacts/A/1.0.0/link",
    )?;
    let mut runner = ShellRunner::new(&rt, root);
    let is_made = make_pipe(alloc, &mut runner, folder) == Ok(true);
    drop(runner);
    let is_piped = fs::exists(&rt, "sweep-of-a-test/packages/artifacts/A/1.0.0/pipe")?;
    let mut disk = FileDisk::new(&rt, root, Access::Write)?;
    let is_swept = is_swept(alloc, &mut disk);
    drop(disk);
    // Nothing is left below the folder of the artifacts, which stays.
    let is_bare = fs::remove_dir(&rt, "sweep-of-a-test/packages/artifacts").is_ok();
    fs::remove_dir_all(&rt, root)?;
    assert!(rt; is_made && is_piped);
    assert!(rt; is_swept && is_bare);
    Ok(())
}
