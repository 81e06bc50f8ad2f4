ghost use Rattle.std.specs.Prelude.{◌≡◌, ◌≤◌, ◌++◌, List, ℕ, [], length, drop, IfOk, OnOk, option_map, true};
ghost use Rattle.folder_edges.specs.Names.{AreDocumentsOf, IsSifted};
ghost use Rattle.folder_edges.specs.Entries.{marked, place_of_first, name_of_first, entries_of, AreEntriesOf};

use crate::names::document_name;
use nuc_base::{Bytes, List, NoMemory, Text};
use std::alloc::Global;
use std::marker::Model;

/// Where a document stands: in the inbox, or among those that were taken out of it.
#[derive(Clone, Copy, Debug, PartialEq, Eq)]
pub enum Place {
    Inbox,
    Taken,
}

/// A document that was listed.
#[derive(Debug, Drop)]
pub struct Entry {
    pub place: Place,
    pub name: Text,
}

/// The documents that were listed, and the place of the first that is left. Contracts see those that are left.
#[derive(Drop)]
pub struct Listing {
    entries: List<Entry>,
    at: usize,
    /// The first that is left was taken since.
    is_taken: bool,
    ghost within: { at ≤ length entries },
}

impl Model for Listing {
    ghost use Rattle.std.specs.Prelude.{List, drop};
    ghost use Rattle.folder_edges.specs.declared.listing.Entry.{Entry};
    ghost use Rattle.folder_edges.specs.Entries.{marked};

    ghost Value = { List Entry };

    ghost view = { λ a. marked a.is_taken (drop a.at a.entries) };
}

impl Listing {
    /// Nothing is left.
    pub fn none(alloc: Global) -> Listing
        ensures { result ≡ [] }
    {
        Listing {
            entries: List::empty(alloc),
            at: 0,
            is_taken: false,
        }
    }

    /// The documents among those that were taken, and then those of the inbox, each in byte order of their names.
    pub fn new(alloc: Global, taken: &[Bytes], names: &[Bytes]) -> Result<Listing, NoMemory>
        ensures entries { IfOk result (λ l. AreEntriesOf taken.now names.now l) }
    {
        let mut entries = Vec::new(alloc);
        add(&mut entries, Place::Taken, sorted_documents(alloc, taken)?)?;
        add(&mut entries, Place::Inbox, sorted_documents(alloc, names)?)?;
        Ok(Listing {
            entries: List::new(entries),
            at: 0,
            is_taken: false,
        })
    }

    pub fn len(&self) -> usize
        ensures { result ≡ length self.now }
    {
        self.entries.len() - self.at
    }

    /// Where the first that is left stands.
    pub fn place(&self) -> Option<Place>
        ensures { result ≡ place_of_first self.now }
    {
        match self.entries.as_slice().get(self.at) {
            Some(_) if self.is_taken => Some(Place::Taken),
            Some(entry) => Some(entry.place),
            None => None,
        }
    }

    /// The name of the first that is left.
    pub fn name(&self) -> Option<&Text>
        ensures { option_map (λ n. n.now) result ≡ name_of_first self.now }
    {
        match self.entries.as_slice().get(self.at) {
            Some(entry) => Some(&entry.name),
            None => None,
        }
    }

    /// The first that is left was taken.
    pub fn mark_first(&mut self)
        ensures { self.new ≡ marked true self.old }
    {
        self.is_taken = true;
    }

    /// Leaves out the first, where there is one.
    pub fn skip_first(&mut self)
        ensures { self.new ≡ drop 1 self.old }
    {
        self.is_taken = false;
        if self.at < self.entries.len() {
            self.at += 1;
        }
    }
}

/// Adds documents that stand at this place.
fn add(entries: &mut Vec<Entry>, place: Place, names: Vec<Text>) -> Result<(), NoMemory>
    ensures { OnOk result (entries.new.items ≡ entries.old.items ++ entries_of place names.items) }
{
    for name in names {
        entries.push(Entry { place, name })?;
    }
    Ok(())
}

/// Those of a folder's names that are documents', rising in byte order.
pub fn sorted_documents(alloc: Global, names: &[Bytes]) -> Result<Vec<Text>, NoMemory>
    ensures documents { IfOk result (λ texts. AreDocumentsOf names.now texts.items) }
{
    let mut documents = documents_of(alloc, names)?;
    documents.sort()?;
    Ok(documents)
}

fn documents_of(alloc: Global, names: &[Bytes]) -> Result<Vec<Text>, NoMemory>
    ensures { IfOk result (λ texts. IsSifted names.now texts.items) }
{
    let mut texts = Vec::new(alloc);
    for name in names {
        if let Some(text) = document_name(alloc, name.as_slice())? {
            texts.push(text)?;
        }
    }
    Ok(texts)
}
