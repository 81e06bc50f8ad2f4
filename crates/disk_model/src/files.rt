// Named files in memory.
ghost use Rattle.std.specs.Prelude.{◌≡◌, ◌≢◌, ◌↔◌, ◌++◌, ◌-◌, ◌^◌, [], ◌∷◌, ◌<◌, ◌≤◌, ℕ, min, Contains, length, take, drop, slice_index_or, IsTrue, IfOk, OnOk, OnErr};
ghost use Rattle.disk_model.specs.Files.{bytes_of, contents, image_of};
ghost use Rattle.disk_model.specs.Listing.{IsBelow, IsListing};
ghost use Rattle.disk_model.specs.Places.{NoneBefore, IsFirst, Rewritten};
ghost use Rattle.disk_model.specs.Put.{put, overwritten};

use nuc_base::{Copied, FileName, List, NoMemory};
use std::alloc::Global;

/// A named file.
#[derive(Drop)]
pub struct File {
    pub name: FileName,
    pub bytes: Vec<u8>,
}

/// Files by their names. Of two with one name the first counts.
#[derive(Drop)]
pub struct Files {
    pub files: Vec<File>,
}

impl Files {
    pub fn new(alloc: Global) -> Files
        ensures { (name : List ℕ) → image_of result name ≡ [] }
    {
        Files {
            files: Vec::new(alloc),
        }
    }

    /// What the file of this name holds.
    pub fn get(&self, name: &str) -> &[u8]
        ensures { result.now ≡ image_of self.now name.now }
    {
        held(&self.files, name)
    }

    /// Puts bytes in the place of what the file held.
    pub fn set(&mut self, alloc: Global, name: &str, bytes: Vec<u8>) -> Result<(), NoMemory>
        ensures ok { OnOk result ((n : List ℕ) → image_of self.new n ≡ put name.now bytes.items (image_of self.old) n) }
        ensures err { OnErr result ((n : List ℕ) → image_of self.new n ≡ image_of self.old n) }
    {
        let place = place_of(alloc, &mut self.files, name)?;
        replace(&mut self.files, place, bytes);
        Ok(())
    }

    /// Writes over what the file holds from that place on, or from its end where that comes first.
    pub fn write(
        &mut self,
        alloc: Global,
        name: &str,
        at: usize,
        bytes: &[u8],
    ) -> Result<(), NoMemory>
        ensures ok { OnOk result ((n : List ℕ) →
            image_of self.new n ≡ put name.now (overwritten at bytes.now (image_of self.old name.now)) (image_of self.old) n) }
        ensures err { OnErr result ((n : List ℕ) → image_of self.new n ≡ image_of self.old n) }
    {
        let place = place_of(alloc, &mut self.files, name)?;
        write_in(&mut self.files, place, at, bytes)
    }

    /// Keeps the first bytes of the file.
    pub fn cut(&mut self, name: &str, len: usize)
        ensures { (n : List ℕ) → image_of self.new n ≡ put name.now (take len (image_of self.old name.now)) (image_of self.old) n }
    {
        let place = find_place(&self.files, name);
        if place < self.files.len() {
            cut_in(&mut self.files, place, len);
        }
    }

    /// The names in this folder of files that are not empty, rising in byte order.
    pub fn listed(&self, alloc: Global, folder: &str) -> Result<List<FileName>, NoMemory>
        ensures { IfOk result (λ names. IsListing folder.now (image_of self.now) names) }
    {
        let mut names = self.names_below(alloc, folder)?;
        names.sort()?;
        names.dedup();
        Ok(List::new(names))
    }

    /// The names in this folder of files that are not empty.
    fn names_below(&self, alloc: Global, folder: &str) -> Result<Vec<FileName>, NoMemory>
        ensures { IfOk result (λ names. (n : List ℕ) → Contains names.items n ↔ (IsBelow folder.now n × (image_of self.now n ≢ []))) }
    {
        let mut names = Vec::new(alloc);
        for file in &self.files {
            if self.is_listed(file.name.as_str(), folder) {
                names.push(file.name.copy(alloc)?)?;
            }
        }
        Ok(names)
    }

    /// Whether the name is one in this folder whose file is not empty.
    fn is_listed(&self, name: &str, folder: &str) -> bool
        ensures { IsTrue result ↔ (IsBelow folder.now name.now × (image_of self.now name.now ≢ [])) }
    {
        begins_with(name, folder) && !self.get(name).is_empty()
    }

    /// How many bytes all files have.
    pub fn size(&self) -> u64
        ensures { result ≡ min (bytes_of self.now) (2 ^ 64 - 1) }
    {
        let mut size = 0u64;
        for file in &self.files {
            size = size.saturating_add(file.bytes.len() as u64);
        }
        size
    }

    /// The same files again.
    pub fn copy(&self, alloc: Global) -> Result<Files, NoMemory>
        ensures { IfOk result (λ f. (n : List ℕ) → image_of f n ≡ image_of self.now n) }
    {
        let mut files = Vec::with_capacity(alloc, self.files.len())?;
        for file in &self.files {
            files.push(File {
                name: file.name.copy(alloc)?,
                bytes: file.bytes.to_vec(alloc)?,
            })?;
        }
        Ok(Files { files })
    }
}

/// Whether the name is one in this folder.
fn begins_with(name: &str, folder: &str) -> bool
    ensures { IsTrue result ↔ IsBelow folder.now name.now }
{
    name.as_bytes().starts_with(folder.as_bytes())
}

/// What the first file of this name holds.
fn held<'a>(files: &'a [File], name: &str) -> &'a [u8]
    ensures { result.now ≡ contents files.now name.now }
{
    for file in files {
        if name.as_bytes() == file.name.as_bytes() {
            return &file.bytes;
        }
    }
    &[]
}

/// The place of the first file of this name, or the number of files.
fn find_place(files: &[File], name: &str) -> usize
    ensures before { NoneBefore name.now result files.now }
    ensures found { result < length files.now → IsFirst name.now result files.now }
    ensures within { result ≤ length files.now }
{
    for (i, file) in files.iter().enumerate() {
        if file.name.as_bytes() == name.as_bytes() {
            return i;
        }
    }
    files.len()
}

/// The place of the file of this name, which is added where there is none.
fn place_of(alloc: Global, files: &mut Vec<File>, name: &str) -> Result<usize, NoMemory>
    ensures same { (n : List ℕ) → contents files.new.items n ≡ contents files.old.items n }
    ensures found { IfOk result (λ i. IsFirst name.now i files.new.items × (i < length files.new.items)) }
{
    let i = find_place(files, name);
    if i == files.len() {
        files.push(File {
            name: FileName::from_str(alloc, name)?,
            bytes: Vec::new(alloc),
        })?;
    }
    Ok(i)
}

/// Other bytes in the file at that place.
fn replace(files: &mut Vec<File>, place: usize, bytes: Vec<u8>)
    requires { place < length files.old.items }
    ensures { Rewritten place (λ _. bytes.items) files.old.items files.new.items }
{
    files[place].bytes = bytes;
}

/// Writes over the bytes of the file at that place.
fn write_in(files: &mut Vec<File>, place: usize, at: usize, bytes: &[u8]) -> Result<(), NoMemory>
    requires { place < length files.old.items }
    ensures ok { OnOk result (Rewritten place (λ old. overwritten at bytes.now old) files.old.items files.new.items) }
    ensures err { OnErr result (Rewritten place (λ old. old) files.old.items files.new.items) }
{
    write_over(&mut files[place].bytes, at, bytes)
}

/// Keeps the first bytes of the file at that place.
fn cut_in(files: &mut Vec<File>, place: usize, len: usize)
    requires { place < length files.old.items }
    ensures { Rewritten place (λ old. take len old) files.old.items files.new.items }
{
    files[place].bytes.truncate(len);
}

/// Writes over the old bytes from that place on, or from their end where that comes first.
fn write_over(old: &mut Vec<u8>, at: usize, bytes: &[u8]) -> Result<(), NoMemory>
    ensures ok { OnOk result (old.new.items ≡ overwritten at bytes.now old.old.items) }
    ensures err { OnErr result (old.new.items ≡ old.old.items) }
{
    let at = at.min(old.len());
    let within = bytes.len().min(old.len() - at);
    old.extend_from_slice(&bytes[within..])?;
    old[at..at + within].copy_from_slice(&bytes[..within]);
    Ok(())
}
