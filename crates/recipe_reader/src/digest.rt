// The digest of an artifact, as a recipe writes it.
ghost use Rattle.std.specs.Prelude.{◌≡◌, ◌≢◌, ℕ, List, length, MatchOption};
ghost use Rattle.nuc_base.specs.Tables.{AnswerBy, on};
ghost use Rattle.tree_core.specs.View.{view};
ghost use Rattle.tree_core.specs.Regular.{IsRegular};
ghost use Rattle.tree_core.specs.Parts.{check, IsTextOf};
ghost use Rattle.recipe_reader.specs.Spelled.{spelled};
ghost use Rattle.recipe_reader.specs.Keys.{keyed as keyed_of};
ghost use Rattle.recipe_reader.specs.Artifacts.{IsBase64, IsDigest, digest_lines, IsDigestOf};
ghost use Rattle.recipe_reader.specs.declared.fault.Key.TheVariants as key;
ghost use Rattle.recipe_reader.specs.declared.fault.RecipeFault.TheVariants.{NoMemory as OutOfMemory, BadDigest};

use crate::fault::{Key, RecipeFault};
use crate::keys::keyed;
use base64::DecodeAllocError;
use base64::engine::general_purpose::STANDARD;
use hex::FromHex;
use std::alloc::Global;
use tree_core::Tree;

/// How many bytes a SHA-256 has (FIPS 180-4).
const DIGEST_LEN: usize = 32;

fn array_of(bytes: &[u8]) -> Option<[u8; 32]>
    ensures { MatchOption result (length bytes.now ≢ 32) (λ d. (d ≡ bytes.now) × (length bytes.now ≡ 32)) }
{
    if bytes.len() != DIGEST_LEN {
        return None;
    }
    let mut digest = [0; 32];
    digest.copy_from_slice(bytes);
    Some(digest)
}

/// The digest that is written in base64.
fn from_base64(alloc: Global, text: &str) -> Result<[u8; 32], RecipeFault>
    ensures { AnswerBy OutOfMemory (check ((d : List ℕ) × IsBase64 text.now d) BadDigest) (IsBase64 text.now) result }
{
    match STANDARD.decode(alloc, text.as_bytes()) {
        Ok(bytes) => match array_of(bytes.as_slice()) {
            Some(digest) => Ok(digest),
            None => Err(RecipeFault::BadDigest),
        },
        Err(DecodeAllocError::OutOfMemory) => Err(RecipeFault::NoMemory),
        Err(DecodeAllocError::DecodeError(_)) => Err(RecipeFault::BadDigest),
    }
}

fn digest_of(alloc: Global, text: &str) -> Result<[u8; 32], RecipeFault>
    ensures { AnswerBy OutOfMemory (check ((d : List ℕ) × IsDigest text.now d) BadDigest) (IsDigest text.now) result }
{
    match <[u8; 32] as FromHex>::from_hex(text) {
        Ok(digest) => Ok(digest),
        Err(_) => from_base64(alloc, text),
    }
}

fn digest_in(alloc: Global, value: &Tree) -> Result<[u8; 32], RecipeFault>
    ensures { AnswerBy OutOfMemory (digest_lines (view value.now)) (λ d. IsTextOf (λ s. IsDigest s d) (view value.now)) result }
{
    let Tree::Text(text) = value else {
        return Err(RecipeFault::BadDigest);
    };
    digest_of(alloc, text.as_str())
}

/// The digest of an artifact, where it gives one.
pub fn digest_at(alloc: Global, artifact: &Tree) -> Result<Option<[u8; 32]>, RecipeFault>
    requires { IsRegular (view artifact.now) }
    ensures { AnswerBy OutOfMemory
        (on (keyed_of (spelled key.Digest) (view artifact.now)) digest_lines)
        (IsDigestOf (keyed_of (spelled key.Digest) (view artifact.now)))
        result }
{
    match keyed(artifact, Key::Digest) {
        Some(value) => Ok(Some(digest_in(alloc, value)?)),
        None => Ok(None),
    }
}
