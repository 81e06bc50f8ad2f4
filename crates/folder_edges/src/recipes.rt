ghost use Rattle.std.specs.Prelude.{◌≡◌, ◌⊎◌, ◌≤◌, ◌+◌, ◌<◌, [], None, IsSome, length, option_map, IfOk, OnOk, OnErr, IsErrOf};
ghost use Rattle.std.specs.List.{slice_get};
ghost use Rattle.nuc_base.specs.Faults.{Rose};
ghost use Rattle.folders.specs.History.{Saw, IsUntouched};
ghost use Rattle.folders.specs.Calls.{Opens};
ghost use Rattle.folder_edges.specs.Recipes.{most_of_recipe, added, Reads, HoldsRecipes};

use crate::listing::sorted_documents;
use folders::{Folder, FolderFault, Opened};
use nuc_base::{Bytes, List, NoMemory, Text};
use std::alloc::Global;

/// Why there are no recipes.
#[derive(Clone, Copy, Debug, Drop, PartialEq, Eq)]
pub enum RecipesFault {
    Failed,
    NoMemory,
}

/// The most bytes of a recipe that are given: one more than a recipe may have.
const MOST: usize = 65_537;

/// How often a file is tried that cannot be opened or read.
const TRIES: u32 = 3;

/// The recipes of a folder. They are read at the first count after a refresh and held from there on, so what is held is known
/// also where the folder tells nothing.
#[derive(Drop)]
pub struct FolderRecipes<F> {
    folder: F,
    held: Option<List<Bytes>>,
}

/// Opens the file, and tries again where it cannot be opened or read.
fn open_patiently<F: Folder>(
    alloc: Global,
    folder: &mut F,
    name: &[u8],
) -> Result<Option<Opened>, FolderFault>
    ensures told { Saw (F.history folder.old) (F.history folder.new) (λ found. IsUntouched found × Opens name.now most_of_recipe found result) }
    ensures cause { IsErrOf result FolderFault.Failed → Rose (F.missed folder.old) (F.missed folder.new) }
    ensures later { F.missed folder.old ≤ F.missed folder.new }
    ensures others { F.faults folder.new ≡ F.faults folder.old }
{
    'trying: for _ in 1..TRIES {
        match folder.open(alloc, name, MOST) {
            Ok(opened) => return Ok(opened),
            Err(FolderFault::Failed) => {}
            Err(FolderFault::NoMemory) => return Err(FolderFault::NoMemory),
        }
    }
    folder.open(alloc, name, MOST)
}

/// The first bytes of each that is a plain file, in the order of the names.
fn read_all<F: Folder>(
    alloc: Global,
    folder: &mut F,
    names: &[Text],
) -> Result<List<Bytes>, FolderFault>
    ensures told { Saw (F.history folder.old) (F.history folder.new) (λ found. IsUntouched found × IfOk result (Reads found names.now)) }
    ensures cause { IsErrOf result FolderFault.Failed → Rose (F.missed folder.old) (F.missed folder.new) }
    ensures later { F.missed folder.old ≤ F.missed folder.new }
    ensures others { F.faults folder.new ≡ F.faults folder.old }
{
    let mut recipes = List::empty(alloc);
    'reading: for place in 0..names.len() {
        let opened = open_patiently(alloc, folder, names[place].as_bytes())?;
        add(&mut recipes, opened)?;
    }
    Ok(recipes)
}

/// Adds what was read, where something was.
fn add(recipes: &mut List<Bytes>, opened: Option<Opened>) -> Result<(), FolderFault>
    ensures added { OnOk result (recipes.new ≡ added opened recipes.old) }
    ensures never { ¬ (IsErrOf result FolderFault.Failed) }
{
    match opened {
        Some(opened) => match recipes.push(opened.bytes) {
            Ok(()) => Ok(()),
            Err(_) => Err(FolderFault::NoMemory),
        },
        None => Ok(()),
    }
}

/// The recipes of the folder as it is listed now.
fn read_folder<F: Folder>(alloc: Global, folder: &mut F) -> Result<List<Bytes>, FolderFault>
    ensures told { Saw (F.history folder.old) (F.history folder.new) (λ found. IsUntouched found × IfOk result (HoldsRecipes found)) }
    ensures cause { IsErrOf result FolderFault.Failed → Rose (F.faults folder.old) (F.faults folder.new) ⊎ Rose (F.missed folder.old) (F.missed folder.new) }
{
    match folder.list(alloc) {
        Ok(names) => match sorted_documents(alloc, names.as_slice()) {
            Ok(documents) => read_all(alloc, folder, documents.as_slice()),
            Err(NoMemory) => Err(FolderFault::NoMemory),
        },
        Err(fault) => Err(fault),
    }
}

impl<F: Folder + Drop> FolderRecipes<F> {
    ghost use Rattle.folder_edges.specs.Held.{recipes_folder, recipes_held, held_now, Holds};

    /// Nothing is held before the first count.
    pub fn new(folder: F) -> Self
        ensures folder { recipes_folder result ≡ folder }
        ensures held { recipes_held result ≡ None }
    {
        FolderRecipes { folder, held: None }
    }

    /// Lets go of what is held. The folder is listed and read at the next count.
    pub fn refresh(&mut self)
        ensures held { recipes_held self.new ≡ None }
        ensures folder { recipes_folder self.new ≡ recipes_folder self.old }
    {
        self.held = None;
    }

    /// How many recipes are held. Where none are, they are read first, and held from there on.
    pub fn count(&mut self, alloc: Global) -> Result<usize, RecipesFault>
        ensures told { Saw (F.history (recipes_folder self.old)) (F.history (recipes_folder self.new)) (λ found. IsUntouched found
            × OnOk result (Holds found (recipes_held self.old) (recipes_held self.new))) }
        ensures count { IfOk result (λ n. n ≡ length (held_now (recipes_held self.new))) }
        ensures holds { OnOk result (IsSome (recipes_held self.new)) }
        ensures kept { OnErr result (recipes_held self.new ≡ recipes_held self.old) }
        ensures cause { IsErrOf result RecipesFault.Failed → Rose (F.faults (recipes_folder self.old)) (F.faults (recipes_folder self.new))
            ⊎ Rose (F.missed (recipes_folder self.old)) (F.missed (recipes_folder self.new)) }
    {
        if let Some(recipes) = &self.held {
            return Ok(recipes.len());
        }
        match read_folder(alloc, &mut self.folder) {
            Ok(recipes) => {
                let count = recipes.len();
                self.held = Some(recipes);
                Ok(count)
            }
            Err(FolderFault::Failed) => Err(RecipesFault::Failed),
            Err(FolderFault::NoMemory) => Err(RecipesFault::NoMemory),
        }
    }

    /// One of those that are held.
    pub fn recipe(&self, at: usize) -> Option<&[u8]>
        ensures { option_map (λ r. r.now) result ≡ slice_get (held_now (recipes_held self.now)) at }
    {
        match &self.held {
            Some(recipes) => match recipes.as_slice().get(at) {
                Some(recipe) => Some(recipe.as_slice()),
                None => None,
            },
            None => None,
        }
    }
}
