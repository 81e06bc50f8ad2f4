//! Taking in the file of one artifact.
ghost use Rattle.std.specs.Prelude.{◌≡◌, ℕ, ◌≤◌, [], IsTrue, length, Some, None, ⊤, IfOk, IfErr, IfSome};
ghost use Rattle.sha2.specs.Sha256.{sha256};
ghost use Rattle.disk_model.specs.Disk.{Image, IsAfter, HasLeft};
ghost use Rattle.disk_model.specs.Spares.{IsSameBut, IsFile};
ghost use Rattle.library_core.specs.Library.{Artifacts, StandsStill};
ghost use Rattle.records.specs.Stored.{draft_item_view};
ghost use Rattle.artifact_store.specs.Filled.{IsDigestOf};
ghost use Rattle.artifact_store.specs.Paths.{path};
ghost use Rattle.artifact_store.specs.Staged.{HasCounted, StagesBy, artifact_lines, found_lines};

use crate::fault::StageFault;
use crate::paths::file_name;
use disk_model::Disk;
use library_core::{Library, Piece};
use nuc_base::{Artifact, Copied, FileName};
use records::DraftItem;
use sha2::{Digest, Sha256};
use std::alloc::Global;

/// The most bytes of an artifact.
const MOST_BYTES: u64 = 67_108_864;

/// How many bytes are read and written at a time.
pub(crate) const PIECE: usize = 65_536;

/// Asks the library, before a byte is written, whether it has the file, and no more bytes of it than may be.
fn check_size<L: Library>(
    alloc: Global,
    library: &mut L,
    item: &DraftItem,
    artifact: &Artifact,
    target: &FileName,
) -> Result<(), StageFault>
    ensures sized { (l : Artifacts) → (L.content library.old).artifacts ≡ Some l →
        StagesBy (found_lines target.now None (l item.now.name item.now.version artifact.now.file)) (λ _. ⊤) result }
    ensures kept { StandsStill L.content L.coming library.old library.new }
    ensures counts { (n : ℕ) → HasCounted n n (L.faults library.old) (L.faults library.new) result }
{
    let mut next = [0u8];
    let (name, version) = (&item.name, &item.version);
    match library.artifact(alloc, name, version, &artifact.file, MOST_BYTES, &mut next)? {
        Piece::Missing => Err(StageFault::Missing(target.copy(alloc)?)),
        Piece::Bytes(0) => Ok(()),
        Piece::Bytes(_) => Err(StageFault::TooLarge(target.copy(alloc)?, MOST_BYTES)),
    }
}

/// Writes the library's bytes into the file, which is empty, and answers their digest. Of a library that tells nothing
/// they may be more than before, so they are counted.
fn copy_in<D: Disk, L: Library>(
    alloc: Global,
    disk: &mut D,
    library: &mut L,
    item: &DraftItem,
    artifact: &Artifact,
    target: &FileName,
) -> Result<[u8; 32], StageFault>
    requires empty { IsTrue D.is_modelled → D.seen disk.old target.now ≡ [] }
    ensures moments { HasLeft D.moment D.left_since disk.old disk.new (IsAfter (D.may_leave disk.old) (IsSameBut (IsFile target.now))) }
    ensures others { IsTrue D.is_modelled → IsSameBut (IsFile target.now) (D.seen disk.old) (D.seen disk.new) }
    ensures written { IsTrue D.is_modelled → IfOk result (λ digest. digest ≡ sha256 (D.seen disk.new target.now)) }
    ensures copied { (l : Artifacts) → (L.content library.old).artifacts ≡ Some l →
        StagesBy (found_lines target.now None (l item.now.name item.now.version artifact.now.file))
        (IsDigestOf (l item.now.name item.now.version artifact.now.file)) result }
    ensures kept { StandsStill L.content L.coming library.old library.new }
    ensures counts { HasCounted (D.faults disk.old) (D.faults disk.new) (L.faults library.old) (L.faults library.new) result }
{
    let mut hasher = Sha256::new();
    let mut piece = vec![in alloc; 0u8; PIECE]?;
    let mut at: u64 = 0;
    'pieces: loop {
        let (name, version) = (&item.name, &item.version);
        match library.artifact(alloc, name, version, &artifact.file, at, &mut piece)? {
            Piece::Missing => return Err(StageFault::Missing(target.copy(alloc)?)),
            Piece::Bytes(0) => break,
            Piece::Bytes(count) => {
                if at + count as u64 > MOST_BYTES {
                    return Err(StageFault::TooLarge(target.copy(alloc)?, MOST_BYTES));
                }
                hasher.update(&piece[..count]);
                disk.write_at(target.as_str(), at, &piece[..count])?;
                at += count as u64;
            }
        }
    }
    Ok(hasher.finalize())
}

/// Takes in one file of an item: what the library has is written in pieces and made stable. Where the recipe gives a
/// digest it has to be that of the bytes.
pub(crate) fn stage_file<D: Disk, L: Library>(
    alloc: Global,
    disk: &mut D,
    library: &mut L,
    item: &DraftItem,
    artifact: &Artifact,
) -> Result<[u8; 32], StageFault>
    // A crash at any moment of the call changes that file alone.
    ensures moments { HasLeft D.moment D.left_since disk.old disk.new
        (IsAfter (D.may_leave disk.old) (IsSameBut (IsFile (path item.now.name item.now.version artifact.now.file)))) }
    ensures others { IsTrue D.is_modelled → IsSameBut (IsFile (path item.now.name item.now.version artifact.now.file)) (D.seen disk.old) (D.seen disk.new) }
    // Then a crash leaves bytes of that digest.
    ensures held { IfOk result (λ digest. (c : Image) → D.may_leave disk.new c → sha256 (c (path item.now.name item.now.version artifact.now.file)) ≡ digest) }
    ensures given { IfOk result (λ digest. IfSome artifact.now.digest (λ d. digest ≡ d)) }
    ensures staged { (l : Artifacts) → (L.content library.old).artifacts ≡ Some l →
        StagesBy (artifact_lines l (draft_item_view item.now) artifact.now)
        (IsDigestOf (l item.now.name item.now.version artifact.now.file)) result }
    ensures kept { StandsStill L.content L.coming library.old library.new }
    ensures counts { HasCounted (D.faults disk.old) (D.faults disk.new) (L.faults library.old) (L.faults library.new) result }
{
    let target = file_name(alloc, &item.name, &item.version, &artifact.file)?;
    check_size(alloc, library, item, artifact, &target)?;
    disk.cut(target.as_str(), 0)?;
    let digest = copy_in(alloc, disk, library, item, artifact, &target)?;
    disk.sync(target.as_str())?;
    agreed(target, artifact.digest, digest)
}

/// The digest found, unless another is given.
fn agreed(
    target: FileName,
    given: Option<[u8; 32]>,
    digest: [u8; 32],
) -> Result<[u8; 32], StageFault>
    ensures agree { IfOk result (λ d. (d ≡ digest) × IfSome given (λ g. digest ≡ g)) }
    ensures differ { IfErr result (λ f. (f ≡ StageFault.Mismatch target digest) × ¬ (IfSome given (λ g. digest ≡ g))) }
{
    let Some(given) = given else {
        return Ok(digest);
    };
    if given == digest {
        Ok(digest)
    } else {
        Err(StageFault::Mismatch(target, digest))
    }
}
