ghost use Rattle.std.specs.Prelude.{◌≡◌, ◌≤◌, length, map, All, IfOk};
ghost use Rattle.records.specs.Stored.{item_view};
ghost use Rattle.library_core.specs.Sources.{IsKept};

use library_core::{Library, MemoryLibrary, Stored, candidates, gathered_are_one};
use npm_ranges::Version;
use nuc_base::{Bytes, Copied, Label, List, Name, NoMemory, Platform, Text};
use recipe_reader::{Candidates, Recipe};
use records::{Item, Origin};
use std::alloc::Global;
use std::test::Fail;
use test_support::linux;
use tree_core::Tree;

/// The letters that stand for recipes in the tables below.
const LETTERS: &str = "NML98XBCWF.";

/// The recipe that a letter stands for: of the built-in component as it is, with one key more and in a later version,
/// of `A` in version 1.9.0 in two spellings and in 1.10.0, of `b` in two spellings, for another system alone, in another
/// format, and none.
pub(crate) fn recipe_of(letter: u8) -> &'static str {
    match letter {
        b'N' =>
            r#"{"ComponentName":"aws.greengrass.Nucleus","ComponentVersion":"2.12.0","RecipeFormatVersion":"2020-01-25"}"#,
        b'M' =>
            r#"{"ComponentName":"aws.greengrass.Nucleus","ComponentVersion":"2.12.0","RecipeFormatVersion":"2020-01-25","ComponentType":null}"#,
        b'L' =>
            r#"{"RecipeFormatVersion":"2020-01-25","ComponentName":"aws.greengrass.Nucleus","ComponentVersion":"2.13.0"}"#,
        b'9' =>
            r#"{"RecipeFormatVersion":"2020-01-25","ComponentName":"A","ComponentVersion":"1.9.0"}"#,
        b'8' =>
            r#"{"RecipeFormatVersion":"2020-01-25","ComponentName":"A","ComponentVersion":"1.9.0"} "#,
        b'X' =>
            r#"{"RecipeFormatVersion":"2020-01-25","ComponentName":"A","ComponentVersion":"1.10.0"}"#,
        b'B' =>
            r#"{"RecipeFormatVersion":"2020-01-25","ComponentName":"b","ComponentVersion":"0.1.0"}"#,
        b'C' =>
            r#"{"RecipeFormatVersion":"2020-01-25","ComponentVersion":"0.1.0","ComponentName":"b"}"#,
        b'W' =>
            r#"{"RecipeFormatVersion":"2020-01-25","ComponentName":"A","ComponentVersion":"1.9.0","Manifests":[{"Platform":{"os":"windows"}}]}"#,
        b'F' => r#"{"RecipeFormatVersion":"2020-01-26"}"#,
        _ => "",
    }
}

/// The letter of these bytes.
fn letter_of(bytes: &[u8]) -> char {
    for letter in LETTERS.as_bytes() {
        if recipe_of(*letter).as_bytes() == bytes {
            return char::from(*letter);
        }
    }
    '?'
}

/// Each line has the recipes of a library, those of the kept items, the library's call that fails, where the count is
/// call 0 and recipe 0 call 1, and what is answered: the candidates in order, or the fault.
const ROWS: &str = r#"||-|N
X9B9||-|9XNB
XB|B9|-|9XNB
|99|-|9N
WB|9|-|9NB
LMN||-|N
F||-|Recipe(0, FormatVersion)
9WF.||-|Recipe(2, FormatVersion)
9.|9|-|Recipe(1, Tree(NotJson))
B8|9|-|RecipeDiffers("A", "1.9.0")
98|9|-|RecipeDiffers("A", "1.9.0")
|9M|-|RecipeDiffers("aws.greengrass.Nucleus", "2.12.0")
|98|-|RecipeDiffers("A", "1.9.0")
B98|B|-|TwoRecipes("A", "1.9.0")
F8|9|-|Recipe(0, FormatVersion)
8F|9|-|Recipe(1, FormatVersion)
98F|M|-|Recipe(2, FormatVersion)
98|M|-|RecipeDiffers("aws.greengrass.Nucleus", "2.12.0")
98C|B|-|TwoRecipes("A", "1.9.0")
C98|B|-|RecipeDiffers("b", "0.1.0")
||0|Library
9F||1|Library
98B||3|Library
9B||3|9NB
F9||2|Recipe(0, FormatVersion)
|9|-|9N
|9XB|-|9XNB
|BX9|-|9XNB
|XB9|-|9XNB
|L9|-|9NL
|X99|-|9XN
|N|-|N
|9B8|-|RecipeDiffers("A", "1.9.0")
|8B9|-|RecipeDiffers("A", "1.9.0")"#;

pub(crate) fn origin(alloc: Global) -> Result<Origin, Fail> {
    Ok(Origin {
        root: Text::from_str(alloc, "/gg")?,
        thing: Label::read(alloc, b"t1")?,
        nucleus: Version::read(alloc, b"2.12.0")?,
        platform: linux(alloc)?,
    })
}

/// The item of a recipe.
fn item_of(alloc: Global, recipe: &Recipe, bytes: Bytes) -> Result<Item, NoMemory>
    ensures name { IfOk result (λ i. i.name ≡ recipe.now.name) }
    ensures version { IfOk result (λ i. i.version ≡ recipe.now.version) }
    ensures recipe { IfOk result (λ i. i.recipe ≡ bytes) }
{
    let name = recipe.name.copy(alloc)?;
    let version = recipe.version.copy(alloc)?;
    Ok(Item {
        name,
        version,
        recipe: bytes,
        config: Tree::Fields(Vec::new(alloc)),
        artifacts: List::empty(alloc),
    })
}

fn item(alloc: Global, platform: &Platform, text: &str) -> Result<Item, NoMemory>
    ensures { IfOk result (λ item. IsKept platform.now (item_view item)) }
{
    let bytes = Bytes::from_slice(alloc, text.as_bytes())?;
    match Recipe::read(alloc, bytes.as_slice(), platform) {
        Ok(recipe) => {
            let item = item_of(alloc, &recipe, bytes);
            drop(recipe);
            Ok(item?)
        }
        Err(_) => Err(NoMemory),
    }
}

/// The items of the first three letters.
pub(crate) fn items(
    alloc: Global,
    platform: &Platform,
    letters: &str,
) -> Result<List<Item>, NoMemory>
    ensures few { IfOk result (λ kept. length kept ≤ 3) }
    ensures read { IfOk result (λ kept. All (IsKept platform.now) (map item_view kept)) }
{
    let mut kept = List::empty(alloc);
    let few = letters.len().min(3);
    for letter in &letters.as_bytes()[..few] {
        kept.push(item(alloc, platform, recipe_of(*letter))?)?;
    }
    Ok(kept)
}

/// The library of these letters, of which that call fails.
fn library(alloc: Global, letters: &str, call: &str) -> Result<MemoryLibrary, NoMemory> {
    let mut recipes = List::empty(alloc);
    for letter in letters.as_bytes() {
        recipes.push(Bytes::from_slice(alloc, recipe_of(*letter).as_bytes())?)?;
    }
    let failing = List::new(Vec::from_array(alloc, [call.parse::<u64>().unwrap_or(u64::MAX)])?);
    Ok(MemoryLibrary::new(recipes, List::empty(alloc), failing))
}

/// The letters of the candidates.
fn letters(alloc: Global, candidates: &Candidates) -> Result<String, NoMemory> {
    let mut letters = String::new(alloc);
    for candidate in candidates.list().as_slice() {
        letters.push(letter_of(candidate.bytes.as_slice()))?;
    }
    Ok(letters)
}

/// The letters of what is gathered, or the fault.
pub(crate) fn gathered(
    alloc: Global,
    library: &mut MemoryLibrary,
    origin: &Origin,
    kept: &List<Item>,
) -> Result<String, NoMemory>
    requires few { length kept.now ≤ 3 }
    requires read { All (IsKept origin.now.platform) (map item_view kept.now) }
{
    match candidates(alloc, library, origin, kept) {
        Ok(candidates) => {
            let letters = letters(alloc, &candidates);
            drop(candidates);
            letters
        }
        Err(fault) => {
            let said = format!(in alloc; "{fault:?}");
            drop(fault);
            Ok(said?)
        }
    }
}

/// The same of a library of these letters.
fn gathered_of(
    alloc: Global,
    origin: &Origin,
    kept: &List<Item>,
    recipes: &str,
    call: &str,
) -> Result<String, NoMemory>
    requires few { length kept.now ≤ 3 }
    requires read { All (IsKept origin.now.platform) (map item_view kept.now) }
{
    let mut library = library(alloc, recipes, call)?;
    let said = gathered(alloc, &mut library, origin, kept);
    drop(library);
    said
}

/// The same beside the items of these letters.
fn gathered_beside(
    alloc: Global,
    origin: &Origin,
    recipes: &str,
    kept: &str,
    call: &str,
) -> Result<String, NoMemory> {
    let kept = items(alloc, &origin.platform, kept)?;
    let said = gathered_of(alloc, origin, &kept, recipes, call);
    drop(kept);
    said
}

/// What is answered to that.
fn answer(alloc: Global, recipes: &str, kept: &str, call: &str) -> Result<String, Fail> {
    let origin = origin(alloc)?;
    let said = gathered_beside(alloc, &origin, recipes, kept, call);
    drop(origin);
    Ok(said?)
}

fn is_row(alloc: Global, row: &str) -> Result<bool, Fail> {
    let mut fields = row.split('|');
    let recipes = fields.next().unwrap_or("");
    let kept = fields.next().unwrap_or("");
    let call = fields.next().unwrap_or("");
    let want = fields.next().unwrap_or("");
    let found = answer(alloc, recipes, kept, call)?;
    Ok(found.as_str() == want)
}

/// Whether that is answered to so many recipes that are none.
fn is_answered(alloc: Global, count: usize, want: &str) -> Result<bool, Fail> {
    let recipes = ".".repeat(alloc, count)?;
    let found = answer(alloc, recipes.as_str(), "M", "-")?;
    Ok(found.as_str() == want)
}

#[test]
fn candidates_are_gathered_or_refused(rt: HostRuntime) -> Result<(), Fail> {
    let alloc = rt.alloc();
    for row in ROWS.lines() {
        assert!(rt; is_row(alloc, row)?, "{row}");
    }
    assert!(rt; is_answered(alloc, 1024, "Recipe(0, Tree(NotJson))")?);
    assert!(rt; is_answered(alloc, 1025, "TooManyRecipes(1025)")?);
    gathered_are_one();
    Ok(())
}

/// The artifacts of a library: component, version, file and bytes.
const STORED: &str = "A 1.9.0 f abcdef
A 1.9.0 f second
A 1.10.0 f x
A 1.9.0 empty ";

/// Calls in turn, of which number 3 fails: component, version, file, from where, and then what is answered with four
/// bytes, each `#` before.
const CALLS: &str = "A 1.9.0 f 0|Ok(Bytes(4)) abcd
A 1.9.0 f 4|Ok(Bytes(2)) ef##
A 1.9.0 f 6|Ok(Bytes(0)) ####
A 1.9.0 f 0|Err(Failed) ####
A 1.9.0 f 18446744073709551615|Ok(Bytes(0)) ####
A 1.10.0 f 0|Ok(Bytes(1)) x###
A 1.9.0 empty 0|Ok(Bytes(0)) ####
A 1.9.0 g 0|Ok(Missing) ####
A 1.9.1 f 0|Ok(Missing) ####
b 1.9.0 f 0|Ok(Missing) ####";

/// An artifact by its words; the fourth is its bytes.
pub(crate) fn stored(alloc: Global, line: &str) -> Result<Stored, Fail> {
    let mut words = line.split(' ');
    Ok(Stored {
        name: Name::read(alloc, words.next().unwrap_or("").as_bytes())?,
        version: Version::read(alloc, words.next().unwrap_or("").as_bytes())?,
        file: Label::read(alloc, words.next().unwrap_or("").as_bytes())?,
        bytes: Bytes::from_slice(alloc, words.next().unwrap_or("").as_bytes())?,
    })
}

fn stored_library(alloc: Global) -> Result<MemoryLibrary, Fail> {
    let mut artifacts = List::empty(alloc);
    for line in STORED.lines() {
        artifacts.push(stored(alloc, line)?)?;
    }
    let failing = List::new(Vec::from_array(alloc, [3])?);
    Ok(MemoryLibrary::new(List::empty(alloc), artifacts, failing))
}

/// What is answered to a call, of which the place stands where an artifact has its bytes.
fn piece(alloc: Global, library: &mut MemoryLibrary, asked: &Stored) -> Result<String, Fail> {
    let mut into = [b'#'; 4];
    let from = str::from_utf8(asked.bytes.as_slice())?.parse::<u64>()?;
    let given = library.artifact(
        alloc,
        &asked.name,
        &asked.version,
        &asked.file,
        from,
        &mut into,
    );
    let filled = str::from_utf8(into.as_slice())?;
    Ok(format!(in alloc; "{given:?} {filled}")?)
}

/// Whether the call is answered as the line says.
pub(crate) fn is_piece(
    alloc: Global,
    library: &mut MemoryLibrary,
    call: &str,
) -> Result<bool, Fail> {
    let (asked, want) = call.split_once('|').unwrap_or((call, ""));
    let asked = stored(alloc, asked)?;
    let found = piece(alloc, library, &asked);
    drop(asked);
    Ok(found?.as_str() == want)
}

/// The first call that is answered otherwise.
fn wrong_call(alloc: Global, library: &mut MemoryLibrary) -> Result<Option<&'static str>, Fail> {
    for call in CALLS.lines() {
        if !is_piece(alloc, library, call)? {
            return Ok(Some(call));
        }
    }
    Ok(None)
}

fn first_wrong(alloc: Global) -> Result<Option<&'static str>, Fail> {
    let mut library = stored_library(alloc)?;
    let wrong = wrong_call(alloc, &mut library);
    drop(library);
    wrong
}

#[test]
fn artifacts_come_in_pieces(rt: HostRuntime) -> Result<(), Fail> {
    let wrong = first_wrong(rt.alloc())?;
    assert!(rt; wrong.is_none(), "{wrong:?}");
    Ok(())
}
