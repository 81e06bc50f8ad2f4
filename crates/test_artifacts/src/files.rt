ghost use Rattle.std.specs.Prelude.{◌≡◌, ◌≢◌, [], ◌∷◌, codes, map, IfOk};
ghost use Rattle.std.specs.List.{AllByRecursion};
ghost use Rattle.records.specs.Stored.{item_view, draft_item_view};
ghost use Rattle.artifact_store.specs.Paths.{IsNamed, IsNamedDraft};
ghost use Rattle.artifact_store.specs.Staged.{HasItsFiles};

use artifact_store::{StageFault, audit, file_name, stage, sweep};
use device::{Closed, Device, Groups};
use disk_model::{Disk, FusedDisk, MemoryDisk, Pick};
use library_core::{Library, LibraryFault, MemoryLibrary, Piece, Stored};
use npm_ranges::Version;
use nuc_base::{Artifact, Bytes, FileName, Label, List, Name, Policy};
use records::{Draft, DraftItem, Held, Item, Plan};
use std::alloc::Global;
use std::test::Fail;
use tree_core::Tree;

/// The SHA-256 of `abc` (FIPS 180-4).
const ABC: [u8; 32] = [
    0xba, 0x78, 0x16, 0xbf, 0x8f, 0x01, 0xcf, 0xea, 0x41, 0x41, 0x40, 0xde, 0x5d, 0xae, 0x22, 0x23,
    0xb0, 0x03, 0x61, 0xa3, 0x96, 0x17, 0x7a, 0x9c, 0xb4, 0x10, 0xff, 0x61, 0xf2, 0x00, 0x15, 0xad,
];

/// The SHA-256 of no bytes.
const EMPTY: [u8; 32] = [
    0xe3, 0xb0, 0xc4, 0x42, 0x98, 0xfc, 0x1c, 0x14, 0x9a, 0xfb, 0xf4, 0xc8, 0x99, 0x6f, 0xb9, 0x24,
    0x27, 0xae, 0x41, 0xe4, 0x64, 0x9b, 0x93, 0x4c, 0xa4, 0x95, 0x99, 0x1b, 0x78, 0x52, 0xb8, 0x55,
];

/// The file that the device below runs with, and those of the item that is staged.
const KEPT: &str = "packages/artifacts/com.example.HelloWorld/1.0.0/hello_world.py";

const FIRST: &str = "packages/artifacts/com.x/1.0.0/f";

const SECOND: &str = "packages/artifacts/com.x/1.0.0/g";

/// An item with a file whose digest is that of `abc`.
fn kept_item(alloc: Global) -> Result<Item, Fail>
    ensures named { IfOk result (λ k. IsNamed (item_view k)) }
    ensures other { IfOk result (λ k. k.name ≢ codes "com.x") }
{
    let file = Label::read(alloc, b"hello_world.py")?;
    let mut artifacts = List::empty(alloc);
    artifacts.push(Held { file, digest: ABC })?;
    Ok(Item {
        name: Name::read(alloc, b"com.example.HelloWorld")?,
        version: Version::read(alloc, b"1.0.0")?,
        recipe: Bytes::from_slice(alloc, b"")?,
        config: Tree::Fields(Vec::new(alloc)),
        artifacts,
    })
}

/// A device that runs that item.
fn device_of(alloc: Global) -> Result<Device, Fail>
    ensures named { IfOk result (λ d. AllByRecursion IsNamed (map item_view d.set)) }
    ensures others { IfOk result (λ d. AllByRecursion (λ k. k.name ≢ codes "com.x") (map item_view d.set)) }
{
    let mut set = List::empty(alloc);
    set.push(kept_item(alloc)?)?;
    Ok(Device {
        origin: None,
        groups: Groups::empty(alloc),
        set,
        closed: Closed::empty(alloc),
        pending: None,
    })
}

fn artifact(alloc: Global, file: &[u8], digest: Option<[u8; 32]>) -> Result<Artifact, Fail>
    ensures { IfOk result (λ a. a.file ≡ file.now) }
{
    Ok(Artifact {
        file: Label::read(alloc, file)?,
        digest,
    })
}

/// An item with two files, of which the first is to have this digest where there is one.
fn draft_item(alloc: Global, digest: Option<[u8; 32]>) -> Result<DraftItem, Fail>
    ensures named { IfOk result (λ i. IsNamedDraft (draft_item_view i)) }
    ensures name { IfOk result (λ i. i.name ≡ codes "com.x") }
    ensures differ { IfOk result (λ i. HasItsFiles (draft_item_view i)) }
{
    let mut artifacts = List::empty(alloc);
    artifacts.push(artifact(alloc, b"f", digest)?)?;
    artifacts.push(artifact(alloc, b"g", None)?)?;
    Ok(DraftItem {
        name: Name::read(alloc, b"com.x")?,
        version: Version::read(alloc, b"1.0.0")?,
        recipe: Bytes::from_slice(alloc, b"")?,
        config: Tree::Fields(Vec::new(alloc)),
        artifacts,
    })
}

/// The draft of that item.
fn draft_of(alloc: Global, item: DraftItem) -> Result<Draft, Fail>
    ensures { IfOk result (λ d. d.items ≡ item ∷ []) }
{
    let mut items = List::empty(alloc);
    items.push(item)?;
    Ok(Draft {
        id: Label::read(alloc, b"d1")?,
        group: Label::read(alloc, b"g")?,
        revision: 7,
        policy: Policy::Rollback,
        requirements: List::empty(alloc),
        items,
        boots: List::empty(alloc),
    })
}

/// The bytes `abc`, as the file of the item that is staged.
fn stored(alloc: Global, file: &[u8]) -> Result<Stored, Fail> {
    Ok(Stored {
        name: Name::read(alloc, b"com.x")?,
        version: Version::read(alloc, b"1.0.0")?,
        file: Label::read(alloc, file)?,
        bytes: Bytes::from_slice(alloc, b"abc")?,
    })
}

/// A library with the files of these names, a letter each.
fn library_of(alloc: Global, files: &[u8]) -> Result<MemoryLibrary, Fail> {
    let mut artifacts = List::empty(alloc);
    for file in files {
        artifacts.push(stored(alloc, &[*file])?)?;
    }
    Ok(MemoryLibrary::new(List::empty(alloc), artifacts, List::empty(alloc)))
}

/// A library whose every artifact has so many bytes. It tells nothing of what it holds, and leaves the slice as it was.
#[derive(Drop)]
struct SizedLibrary {
    size: u64,
}

impl Library for SizedLibrary {
    ghost use Rattle.std.specs.Prelude.{None};
    ghost use Rattle.library_core.specs.Nothing.{untold};

    ghost content = { λ _. untold };

    ghost coming = { λ _. None };

    ghost faults = { λ _. 0 };

    fn refresh(&mut self) {}

    fn count(&mut self, _alloc: Global) -> Result<u32, LibraryFault> {
        Ok(0)
    }

    fn recipe(&mut self, alloc: Global, _at: u32) -> Result<Bytes, LibraryFault> {
        Ok(Bytes::empty(alloc))
    }

    fn artifact(
        &mut self,
        _alloc: Global,
        _name: &Name,
        _version: &Version,
        _file: &Label,
        from: u64,
        into: &mut [u8],
    ) -> Result<Piece, LibraryFault> {
        let left = self.size.saturating_sub(from);
        Ok(Piece::Bytes(left.min(into.len() as u64) as usize))
    }
}

/// What the staging of that draft answers on the device.
fn staged<D: Disk, L: Library>(
    alloc: Global,
    disk: &mut D,
    library: &mut L,
    device: &Device,
    digest: Option<[u8; 32]>,
) -> Result<Result<Plan, StageFault>, Fail>
    requires named { AllByRecursion IsNamed (map item_view device.now.set) }
    requires others { AllByRecursion (λ k. k.name ≢ codes "com.x") (map item_view device.now.set) }
{
    let item = draft_item(alloc, digest)?;
    let draft = draft_of(alloc, item)?;
    Ok(stage(alloc, disk, library, &device.set, draft))
}

/// Whether it is the draft's plan, with the digest of `abc` for each of its two files.
fn is_plan(plan: &Plan) -> bool {
    let Some(item) = plan.items.as_slice().first() else {
        return false;
    };
    let helds = item.artifacts.as_slice();
    plan.revision == 7 && helds.len() == 2 && helds.iter().all(|held| held.digest == ABC)
}

/// How an answer reads in the tables below.
fn letter(answer: &Result<Plan, StageFault>) -> char {
    match answer {
        Ok(plan) => if is_plan(plan) { 'a' } else { '?' },
        Err(StageFault::Missing(file)) => if file.as_str() == FIRST { 'm' } else { '?' },
        Err(StageFault::TooLarge(file, most)) => if file.as_str() == FIRST && *most == 67_108_864 {
            'l'
        } else {
            '?'
        },
        Err(StageFault::Mismatch(file, digest)) => if file.as_str() == FIRST && *digest == ABC {
            'x'
        } else {
            '?'
        },
        Err(StageFault::Disk) => 'd',
        Err(_) => 'o',
    }
}

/// How staging reads in the tables below.
fn letter_of<D: Disk, L: Library>(
    alloc: Global,
    disk: &mut D,
    library: &mut L,
    device: &Device,
    digest: Option<[u8; 32]>,
) -> Result<char, Fail>
    requires named { AllByRecursion IsNamed (map item_view device.now.set) }
    requires others { AllByRecursion (λ k. k.name ≢ codes "com.x") (map item_view device.now.set) }
{
    let answer = staged(alloc, disk, library, device, digest)?;
    let read = letter(&answer);
    drop(answer);
    Ok(read)
}

/// A disk with the file of the device, which is stable.
fn disk_of(alloc: Global, bytes: &[u8]) -> Result<MemoryDisk, Fail> {
    let mut disk = MemoryDisk::new(alloc);
    disk.write_at(KEPT, 0, bytes)?;
    disk.sync(KEPT)?;
    Ok(disk)
}

/// The digest of `abc`, that of no bytes, or none.
fn digest_named(letter: char) -> Option<[u8; 32]> {
    match letter {
        'a' => Some(ABC),
        'e' => Some(EMPTY),
        _ => None,
    }
}

/// What staging answers with these files in the library, and whether the first was taken in.
fn taken_in(
    alloc: Global,
    disk: &mut MemoryDisk,
    device: &Device,
    files: &[u8],
    digest: char,
) -> Result<(char, bool), Fail>
    requires named { AllByRecursion IsNamed (map item_view device.now.set) }
    requires others { AllByRecursion (λ k. k.name ≢ codes "com.x") (map item_view device.now.set) }
{
    let mut library = library_of(alloc, files)?;
    let answer = letter_of(alloc, disk, &mut library, device, digest_named(digest));
    drop(library);
    Ok((answer?, disk.file(FIRST) == b"abc".as_slice()))
}

fn swept<D: Disk>(alloc: Global, disk: &mut D, device: &Device) -> Result<(), Fail> {
    Ok(sweep(alloc, disk, device)?)
}

/// Whether a sweep leaves the device's file and no other.
fn is_swept(alloc: Global, disk: &mut MemoryDisk, device: &Device) -> Result<bool, Fail> {
    swept(alloc, disk, device)?;
    let gone = disk.file(FIRST).is_empty() && disk.file(SECOND).is_empty();
    Ok(gone && disk.file(KEPT) == b"abc".as_slice())
}

/// What staging answers on the device, whether the first file was taken in, and whether a sweep then leaves the device's
/// file alone.
fn staged_and_swept_on(
    alloc: Global,
    disk: &mut MemoryDisk,
    device: &Device,
    files: &[u8],
    digest: char,
) -> Result<(char, bool, bool), Fail>
    requires named { AllByRecursion IsNamed (map item_view device.now.set) }
    requires others { AllByRecursion (λ k. k.name ≢ codes "com.x") (map item_view device.now.set) }
{
    let (answer, taken) = taken_in(alloc, disk, device, files, digest)?;
    let alone = is_swept(alloc, disk, device)?;
    Ok((answer, taken, alone))
}

/// The same on a device that runs one item, whose file is there.
fn staged_and_swept(alloc: Global, files: &[u8], digest: char) -> Result<(char, bool, bool), Fail> {
    let mut disk = disk_of(alloc, b"abc")?;
    let device = device_of(alloc)?;
    let found = staged_and_swept_on(alloc, &mut disk, &device, files, digest);
    drop(device);
    found
}

#[test]
fn files_are_staged_or_refused_and_swept(rt: HostRuntime) -> Result<(), Fail> {
    let alloc = rt.alloc();
    let rows: [(&[u8], char, char); 4] = [
        (b"fg", '-', 'a'),
        (b"fg", 'a', 'a'),
        (b"fg", 'e', 'x'),
        (b"g", '-', 'm'),
    ];
    for (files, digest, want) in rows {
        let found = staged_and_swept(alloc, files, digest)?;
        assert!(rt; found == (want, want != 'm', true), "{want}");
    }
    Ok(())
}

/// What staging answers on a disk that has stopped, where each file of the library has so many bytes.
fn sized(alloc: Global, size: u64) -> Result<char, Fail> {
    let mut disk = FusedDisk::new(disk_of(alloc, b"abc")?, 0, List::empty(alloc));
    let device = device_of(alloc)?;
    let mut library = SizedLibrary { size };
    let answer = letter_of(alloc, &mut disk, &mut library, &device, None);
    drop(device);
    answer
}

#[test]
fn a_file_of_too_many_bytes_is_refused_before_it_is_written(rt: HostRuntime) -> Result<(), Fail> {
    let alloc = rt.alloc();
    assert!(rt; sized(alloc, 67_108_864)? == 'd', "as many as may be");
    assert!(rt; sized(alloc, 67_108_865)? == 'l', "one more");
    Ok(())
}

/// Whether the image that is picked has the device's file, and the plan's where it was staged.
fn is_held(
    alloc: Global,
    disk: &MemoryDisk,
    pick: Pick,
    device: &Device,
    answer: char,
) -> Result<bool, Fail> {
    let mut image = disk.image(alloc, pick)?;
    let has_plan = image.file(FIRST) == b"abc".as_slice()
        && image.file(SECOND) == b"abc".as_slice();
    Ok(audit(alloc, &mut image, device)?.is_none() && (has_plan || answer != 'a'))
}

/// Whether each image that a crash may leave of the disk has what it is to have.
fn all_held(alloc: Global, disk: &MemoryDisk, device: &Device, answer: char) -> Result<bool, Fail> {
    for pick in [Pick::Old, Pick::New, Pick::Fill(0x01)] {
        if !is_held(alloc, disk, pick, device, answer)? {
            return Ok(false);
        }
    }
    Ok(true)
}

/// What staging answers where the disk stops after so many calls, and whether each image that a crash then may leave has
/// what it is to have.
fn stopped_at(alloc: Global, device: &Device, stop: u64) -> Result<(char, bool), Fail>
    requires named { AllByRecursion IsNamed (map item_view device.now.set) }
    requires others { AllByRecursion (λ k. k.name ≢ codes "com.x") (map item_view device.now.set) }
{
    let mut disk = FusedDisk::new(disk_of(alloc, b"abc")?, stop, List::empty(alloc));
    let mut library = library_of(alloc, b"fg")?;
    let answer = letter_of(alloc, &mut disk, &mut library, device, None);
    drop(library);
    let answer = answer?;
    let held = all_held(alloc, disk.disk(), device, answer)?;
    Ok((answer, held))
}

/// The same on the device that runs the item.
fn stopped(alloc: Global, stop: u64) -> Result<(char, bool), Fail> {
    let device = device_of(alloc)?;
    let found = stopped_at(alloc, &device, stop);
    drop(device);
    found
}

#[test]
fn a_stop_leaves_what_is_held(rt: HostRuntime) -> Result<(), Fail> {
    let alloc = rt.alloc();
    // Each file is cut, written and synced.
    for stop in 0..8 {
        let want = if stop < 6 { 'd' } else { 'a' };
        assert!(rt; stopped(alloc, stop)? == (want, true), "stop {stop}");
    }
    Ok(())
}

/// How an audit reads: whole, or the device's file with the digest of no bytes.
fn audit_letter(found: &Option<(FileName, [u8; 32])>) -> char {
    match found {
        None => 'w',
        Some(found) => if found.0.as_str() == KEPT && found.1 == EMPTY {
            'e'
        } else {
            '?'
        },
    }
}

fn audited_on(alloc: Global, disk: &mut MemoryDisk, device: &Device) -> Result<char, Fail> {
    let found = audit(alloc, disk, device)?;
    Ok(audit_letter(&found))
}

/// How the audit of a device reads whose file has these bytes.
fn audited(alloc: Global, bytes: &[u8]) -> Result<char, Fail> {
    let mut disk = disk_of(alloc, bytes)?;
    let device = device_of(alloc)?;
    let answer = audited_on(alloc, &mut disk, &device);
    drop(device);
    answer
}

#[test]
fn a_changed_file_is_named(rt: HostRuntime) -> Result<(), Fail> {
    let alloc = rt.alloc();
    assert!(rt; audited(alloc, b"abc")? == 'w', "whole");
    assert!(rt; audited(alloc, b"")? == 'e', "emptied");
    Ok(())
}

/// The path of the item's first file.
fn first_path(alloc: Global) -> Result<FileName, Fail> {
    let name = Name::read(alloc, b"com.x")?;
    let version = Version::read(alloc, b"1.0.0")?;
    Ok(file_name(alloc, &name, &version, &Label::read(alloc, b"f")?)?)
}

#[test]
fn a_file_has_its_path(rt: HostRuntime) -> Result<(), Fail> {
    assert!(rt; first_path(rt.alloc())?.as_str() == FIRST, "path");
    Ok(())
}
