// The artifacts of a manifest.
ghost use Rattle.std.specs.Prelude.{◌≡◌, ◌++◌, [], Some, false, map, ⊤, nat_eq};
ghost use Rattle.std.specs.List.{AllZip, starts_with};
ghost use Rattle.serde_json.specs.Data.{array};
ghost use Rattle.serde_json.specs.Find.{get as member_of};
ghost use Rattle.nuc_base.specs.Tables.{AnswerBy, on};
ghost use Rattle.tree_core.specs.View.{view, items_view};
ghost use Rattle.tree_core.specs.Regular.{IsRegular};
ghost use Rattle.tree_core.specs.Parts.{present, check, values, optional as is_optional};
ghost use Rattle.recipe_reader.specs.Spelled.{spelled};
ghost use Rattle.recipe_reader.specs.Keys.{keyed as keyed_of};
ghost use Rattle.recipe_reader.specs.Steps.{required_key};
ghost use Rattle.recipe_reader.specs.Artifacts.{has_scheme as has_a_scheme, file_in, file_text, file_at as file_name_at, IsFileName, IsUri, uri_lines};
ghost use Rattle.recipe_reader.specs.Artifacts.{unarchive_lines, algorithm_lines, artifact_doubles, artifact_lines, IsArtifact, has_name as is_name_among};
ghost use Rattle.recipe_reader.specs.Artifacts.{listed_lines, artifacts_lines, AreArtifacts};
ghost use Rattle.recipe_reader.specs.declared.fault.Key.TheVariants as key;
ghost use Rattle.recipe_reader.specs.declared.fault.RecipeFault.TheVariants.{NoMemory as OutOfMemory, UnsupportedUri, DuplicateArtifact};

use crate::digest::digest_at;
use crate::fault::{Key, RecipeFault};
use crate::keys::{any_case, is_doubled, keyed};
use crate::parts::optional;
use nuc_base::{Artifact, Label, List, NameFault};
use std::alloc::Global;
use tree_core::Tree;

const MOST_ARTIFACTS: usize = 64;

const MOST_NAME_BYTES: usize = 128;

fn has_scheme(uri: &str) -> bool
    ensures { result ≡ has_a_scheme uri.now }
{
    begins(uri, "s3:")
        || begins(uri, "https:")
        || begins(uri, "greengrass:")
        || begins(uri, "file:")
}

fn begins(text: &str, word: &str) -> bool
    ensures { result ≡ starts_with nat_eq text.now word.now }
{
    text.starts_with(word)
}

/// Reads the name of a file, which is one part of a path.
fn file_named(alloc: Global, file: &str) -> Result<Label, RecipeFault>
    ensures { AnswerBy OutOfMemory (check (IsFileName file.now) UnsupportedUri) (λ f. f ≡ file.now) result }
{
    if file.len() > MOST_NAME_BYTES {
        return Err(RecipeFault::UnsupportedUri);
    }
    if file == "." {
        return Err(RecipeFault::UnsupportedUri);
    }
    if file == ".." {
        return Err(RecipeFault::UnsupportedUri);
    }
    match Label::read(alloc, file.as_bytes()) {
        Ok(file) => Ok(file),
        Err(NameFault::Bad) => Err(RecipeFault::UnsupportedUri),
        Err(NameFault::NoMemory) => Err(RecipeFault::NoMemory),
    }
}

/// The name of the file that a URI names.
fn file_of(alloc: Global, uri: &str) -> Result<Label, RecipeFault>
    ensures { AnswerBy OutOfMemory (check (IsUri uri.now) UnsupportedUri) (λ f. f ≡ file_in uri.now) result }
{
    if !has_scheme(uri) {
        return Err(RecipeFault::UnsupportedUri);
    }
    match uri.rsplit_once('/') {
        Some((_, file)) => file_named(alloc, file),
        None => Err(RecipeFault::UnsupportedUri),
    }
}

fn file_from(alloc: Global, uri: &Tree) -> Result<Label, RecipeFault>
    ensures { AnswerBy OutOfMemory (uri_lines (view uri.now)) (λ f. f ≡ file_text (Some (view uri.now))) result }
{
    let Tree::Text(text) = uri else {
        return Err(RecipeFault::WrongKind(Key::Uri));
    };
    file_of(alloc, text.as_str())
}

fn file_at(alloc: Global, artifact: &Tree) -> Result<Label, RecipeFault>
    requires { IsRegular (view artifact.now) }
    ensures { AnswerBy OutOfMemory
        (required_key key.Uri (view artifact.now) uri_lines)
        (λ f. f ≡ file_name_at (view artifact.now))
        result }
{
    match any_case(artifact, Key::Uri) {
        Some(uri) => file_from(alloc, uri),
        None => Err(RecipeFault::Missing(Key::Uri)),
    }
}

fn unarchive_in(value: &Tree) -> Result<(), RecipeFault>
    ensures { AnswerBy OutOfMemory (unarchive_lines (view value.now)) (λ _. ⊤) result }
{
    let Tree::Text(word) = value else {
        return Err(RecipeFault::WrongKind(Key::Unarchive));
    };
    if word.as_str() == "ZIP" {
        return Err(RecipeFault::ZipArtifact);
    }
    if word.as_str() == "NONE" {
        return Ok(());
    }
    Err(RecipeFault::WrongKind(Key::Unarchive))
}

/// An artifact that is to be unpacked is refused.
fn check_unarchive(artifact: &Tree) -> Result<(), RecipeFault>
    requires { IsRegular (view artifact.now) }
    ensures { AnswerBy OutOfMemory (on (keyed_of (spelled key.Unarchive) (view artifact.now)) unarchive_lines) (λ _. ⊤) result }
{
    match keyed(artifact, Key::Unarchive) {
        Some(value) => unarchive_in(value),
        None => Ok(()),
    }
}

fn algorithm_in(value: &Tree) -> Result<(), RecipeFault>
    ensures { AnswerBy OutOfMemory (algorithm_lines (view value.now)) (λ _. ⊤) result }
{
    let Tree::Text(word) = value else {
        return Err(RecipeFault::BadDigest);
    };
    if word.as_str() == "SHA-256" {
        Ok(())
    } else {
        Err(RecipeFault::BadDigest)
    }
}

fn check_algorithm(artifact: &Tree) -> Result<(), RecipeFault>
    requires { IsRegular (view artifact.now) }
    ensures { AnswerBy OutOfMemory (on (keyed_of (spelled key.Algorithm) (view artifact.now)) algorithm_lines) (λ _. ⊤) result }
{
    match keyed(artifact, Key::Algorithm) {
        Some(value) => algorithm_in(value),
        None => Ok(()),
    }
}

fn no_doubles(artifact: &Tree) -> Result<(), RecipeFault>
    ensures { AnswerBy OutOfMemory (artifact_doubles (view artifact.now)) (λ _. ⊤) result }
{
    if is_doubled(artifact, Key::Uri) {
        return Err(RecipeFault::DuplicateKey(Key::Uri));
    }
    if is_doubled(artifact, Key::Unarchive) {
        return Err(RecipeFault::DuplicateKey(Key::Unarchive));
    }
    if is_doubled(artifact, Key::Algorithm) {
        return Err(RecipeFault::DuplicateKey(Key::Algorithm));
    }
    if is_doubled(artifact, Key::Digest) {
        return Err(RecipeFault::DuplicateKey(Key::Digest));
    }
    Ok(())
}

fn artifact_of(alloc: Global, artifact: &Tree) -> Result<Artifact, RecipeFault>
    requires { IsRegular (view artifact.now) }
    ensures { AnswerBy OutOfMemory (artifact_lines (view artifact.now)) (IsArtifact (view artifact.now)) result }
{
    if !artifact.is_object() {
        return Err(RecipeFault::WrongKind(Key::Artifacts));
    }
    no_doubles(artifact)?;
    let file = file_at(alloc, artifact)?;
    check_unarchive(artifact)?;
    check_algorithm(artifact)?;
    let digest = digest_at(alloc, artifact)?;
    Ok(Artifact { file, digest })
}

/// Whether one of the artifacts has the file name.
fn has_name(artifacts: &[Artifact], file: &Label) -> bool
    ensures { result ≡ is_name_among (map (λ a. a.file) artifacts.now) file.now }
{
    for artifact in artifacts {
        if artifact.file.as_str() == file.as_str() {
            return true;
        }
    }
    false
}

/// One artifact more, whose file name no earlier one has.
fn next_artifact(alloc: Global, earlier: &[Artifact], value: &Tree) -> Result<Artifact, RecipeFault>
    requires { IsRegular (view value.now) }
    ensures { AnswerBy OutOfMemory
        (artifact_lines (view value.now) ++ check (is_name_among (map (λ a. a.file) earlier.now) (file_name_at (view value.now)) ≡ false) DuplicateArtifact)
        (IsArtifact (view value.now))
        result }
{
    let artifact = artifact_of(alloc, value)?;
    if has_name(earlier, &artifact.file) {
        return Err(RecipeFault::DuplicateArtifact);
    }
    Ok(artifact)
}

fn artifacts_among(alloc: Global, values: &Vec<Tree>) -> Result<List<Artifact>, RecipeFault>
    requires { IsRegular (array (items_view values.now.items)) }
    ensures { AnswerBy OutOfMemory
        (listed_lines [] (map view values.now.items))
        (AllZip IsArtifact (map view values.now.items))
        result }
{
    let mut artifacts = Vec::with_capacity(alloc, values.len())?;
    for value in values {
        let artifact = next_artifact(alloc, artifacts.as_slice(), value)?;
        artifacts.push(artifact)?;
    }
    Ok(List::new(artifacts))
}

fn artifacts_in(alloc: Global, value: &Tree) -> Result<List<Artifact>, RecipeFault>
    requires { IsRegular (view value.now) }
    ensures { AnswerBy OutOfMemory (artifacts_lines (view value.now)) (AllZip IsArtifact (values (view value.now))) result }
{
    let Tree::Items(items) = value else {
        return Err(RecipeFault::WrongKind(Key::Artifacts));
    };
    if items.len() > MOST_ARTIFACTS {
        return Err(RecipeFault::TooMany(Key::Artifacts));
    }
    artifacts_among(alloc, items)
}

/// The artifacts of a manifest.
pub fn artifacts_of(alloc: Global, manifest: &Tree) -> Result<List<Artifact>, RecipeFault>
    requires { IsRegular (view manifest.now) }
    ensures { AnswerBy OutOfMemory
        (is_optional (spelled key.Artifacts) (view manifest.now) artifacts_lines)
        (AreArtifacts (present (member_of (spelled key.Artifacts) (view manifest.now))))
        result }
{
    match optional(manifest, Key::Artifacts) {
        Some(value) => artifacts_in(alloc, value),
        None => Ok(List::empty(alloc)),
    }
}
