// Which manifest is for a platform.
ghost use Rattle.std.specs.Prelude.{◌≡◌, ℕ, List, Bool, Some, map, option_map, ◌==◌, ◌&&◌, ◌++◌};
ghost use Rattle.std.specs.List.{list_all, list_any};
ghost use Rattle.serde_json.specs.Data.{array};
ghost use Rattle.serde_json.specs.Find.{get as member_of};
ghost use Rattle.nuc_base.specs.Names.{is_name_byte};
ghost use Rattle.nuc_base.specs.Tables.{AnswerBy};
ghost use Rattle.tree_core.specs.View.{view, field_view, items_view};
ghost use Rattle.tree_core.specs.Regular.{IsRegular};
ghost use Rattle.tree_core.specs.Parts.{present, values, check, optional as is_optional};
ghost use Rattle.recipe_reader.specs.Spelled.{spelled};
ghost use Rattle.recipe_reader.specs.Found.{IsSeenAs};
ghost use Rattle.recipe_reader.specs.Platforms.{is_any as is_any_text, is_word as is_one_word, inside as text_inside, words as words_in, is_text};
ghost use Rattle.recipe_reader.specs.Platforms.{is_pattern as is_a_pattern, names as names_value, word_lines, platform_lines, manifest_lines};
ghost use Rattle.recipe_reader.specs.Platforms.{manifests_lines, fits, is_open as is_open_value, asks_nothing as asks_for_nothing, platform_matches, matches};
ghost use Rattle.recipe_reader.specs.Platforms.{walk_lines, chosen, chosen_in, HasChoice};
ghost use Rattle.recipe_reader.specs.declared.fault.Key.TheVariants as key;
ghost use Rattle.recipe_reader.specs.declared.fault.RecipeFault.TheVariants.{NoMemory as OutOfMemory, NoManifest};

use crate::fault::{Key, RecipeFault};
use crate::parts::optional;
use nuc_base::{Label, Platform, Text};
use tree_core::Tree;

const MOST_MANIFESTS: usize = 64;

fn is_any(text: &str) -> bool
    ensures { result ≡ is_any_text text.now }
{
    text == "*" || text == "all"
}

fn are_name_bytes(text: &[u8]) -> bool
    ensures { result ≡ list_all is_name_byte text.now }
{
    for byte in text {
        if !is_name_letter(*byte) {
            return false;
        }
    }
    true
}

fn is_name_letter(byte: u8) -> bool
    ensures { result ≡ is_name_byte byte }
{
    byte.is_ascii_alphanumeric() || byte == b'-' || byte == b'_' || byte == b'.'
}

/// Letters, digits, `_`, `-` and `.`, one at least.
fn is_word(text: &[u8]) -> bool
    ensures { result ≡ is_one_word text.now }
{
    !text.is_empty() && are_name_bytes(text)
}

/// What stands between a slash at the beginning and one at the end.
fn inside(text: &str) -> Option<&str>
    ensures { option_map (λ t. t.now) result ≡ text_inside text.now }
{
    match text.strip_prefix('/') {
        Some(rest) => rest.strip_suffix('/'),
        None => None,
    }
}

/// Whether the text is words with bars between them.
fn are_words(text: &str) -> bool
    ensures { result ≡ list_all is_one_word (words_in text.now) }
{
    let mut rest = text;
    'words: while let Some((word, after)) = rest.split_once('|') {
        if !is_word(word.as_bytes()) {
            return false;
        }
        rest = after;
    }
    is_word(rest.as_bytes())
}

/// Whether one of the words with bars between them is the value.
fn has_word(text: &str, value: &str) -> bool
    ensures { result ≡ list_any (λ w. is_text w value.now) (words_in text.now) }
{
    let mut rest = text;
    'words: while let Some((word, after)) = rest.split_once('|') {
        if word == value {
            return true;
        }
        rest = after;
    }
    rest == value
}

/// Whether the text has a form that is read.
fn is_pattern(text: &str) -> bool
    ensures { result ≡ is_a_pattern text.now }
{
    if is_any(text) {
        return true;
    }
    if is_word(text.as_bytes()) {
        return true;
    }
    match inside(text) {
        Some(inner) => are_words(inner),
        None => false,
    }
}

/// Whether a text of such a form matches the value.
fn names(value: &str, text: &str) -> bool
    ensures { result ≡ names_value value.now text.now }
{
    if is_any(text) {
        return true;
    }
    if is_word(text.as_bytes()) && text == value {
        return true;
    }
    match inside(text) {
        Some(inner) => has_word(inner, value),
        None => false,
    }
}

fn word_fits(key: Key, value: &Label, word: &Tree) -> Result<bool, RecipeFault>
    ensures { AnswerBy OutOfMemory (word_lines key (view word.now)) (λ b. b ≡ fits value.now (Some (view word.now))) result }
{
    let Tree::Text(text) = word else {
        return Err(RecipeFault::WrongKind(key));
    };
    if !is_pattern(text.as_str()) {
        return Err(RecipeFault::UnsupportedPlatform);
    }
    Ok(names(value.as_str(), text.as_str()))
}

fn key_fits(key: Key, value: &Label, platform: &Tree) -> Result<bool, RecipeFault>
    ensures { AnswerBy OutOfMemory
        (is_optional (spelled key) (view platform.now) (word_lines key))
        (λ b. b ≡ fits value.now (present (member_of (spelled key) (view platform.now))))
        result }
{
    match optional(platform, key) {
        Some(word) => word_fits(key, value, word),
        None => Ok(true),
    }
}

fn is_open(value: &Tree) -> bool
    ensures { result ≡ is_open_value (view value.now) }
{
    match value {
        Tree::Null => true,
        Tree::Text(text) => is_any(text.as_str()),
        _ => false,
    }
}

fn asks_nothing(name: &str, value: &Tree) -> bool
    ensures { result ≡ asks_for_nothing (name.now, view value.now) }
{
    name == "os" || name == "architecture" || is_open(value)
}

/// Whether the keys beside `os` and `architecture` ask for nothing.
fn others_ask_nothing(fields: &Vec<(Text, Tree)>) -> bool
    ensures { result ≡ list_all asks_for_nothing (map field_view fields.now.items) }
{
    for (name, value) in fields {
        if !asks_nothing(name.as_str(), value) {
            return false;
        }
    }
    true
}

fn platform_fits(platform: &Platform, value: &Tree) -> Result<bool, RecipeFault>
    ensures { AnswerBy OutOfMemory (platform_lines (view value.now)) (λ b. b ≡ platform_matches platform.now (view value.now)) result }
{
    let Tree::Fields(fields) = value else {
        return Err(RecipeFault::WrongKind(Key::Platform));
    };
    let os = key_fits(Key::Os, &platform.os, value)?;
    let architecture = key_fits(Key::Architecture, &platform.architecture, value)?;
    Ok(fits_all(os, architecture, fields))
}

fn fits_all(os: bool, architecture: bool, fields: &Vec<(Text, Tree)>) -> bool
    ensures { result ≡ ((os && architecture) && list_all asks_for_nothing (map field_view fields.now.items)) }
{
    os && architecture && others_ask_nothing(fields)
}

/// Whether the manifest is for the platform.
fn manifest_fits(platform: &Platform, manifest: &Tree) -> Result<bool, RecipeFault>
    ensures { AnswerBy OutOfMemory (manifest_lines (view manifest.now)) (λ b. b ≡ matches platform.now (view manifest.now)) result }
{
    if !manifest.is_object() {
        return Err(RecipeFault::WrongKind(Key::Manifests));
    }
    match optional(manifest, Key::Platform) {
        Some(value) => platform_fits(platform, value),
        None => Ok(true),
    }
}

/// The first manifest that is for the platform. Those behind it are not looked at.
fn first_fit<'t>(
    platform: &Platform,
    manifests: &'t Vec<Tree>,
) -> Result<Option<&'t Tree>, RecipeFault>
    requires { IsRegular (array (items_view manifests.now.items)) }
    ensures { AnswerBy OutOfMemory
        (walk_lines platform.now (map view manifests.now.items))
        (IsSeenAs (λ t. view t.now) (chosen platform.now (map view manifests.now.items)))
        result }
{
    for manifest in manifests {
        if manifest_fits(platform, manifest)? {
            return Ok(Some(manifest));
        }
    }
    Ok(None)
}

/// The manifest that is for the platform, where there are manifests.
fn choice_among<'t>(
    platform: &Platform,
    manifests: &'t Vec<Tree>,
) -> Result<Option<&'t Tree>, RecipeFault>
    requires { IsRegular (array (items_view manifests.now.items)) }
    ensures { AnswerBy OutOfMemory
        (walk_lines platform.now (map view manifests.now.items) ++ check (HasChoice platform.now (map view manifests.now.items)) NoManifest)
        (IsSeenAs (λ t. view t.now) (chosen platform.now (map view manifests.now.items)))
        result }
{
    match first_fit(platform, manifests)? {
        Some(manifest) => Ok(Some(manifest)),
        None => {
            if manifests.is_empty() {
                Ok(None)
            } else {
                Err(RecipeFault::NoManifest)
            }
        }
    }
}

fn choice_in<'t>(platform: &Platform, value: &'t Tree) -> Result<Option<&'t Tree>, RecipeFault>
    requires { IsRegular (view value.now) }
    ensures { AnswerBy OutOfMemory
        (manifests_lines platform.now (view value.now))
        (IsSeenAs (λ t. view t.now) (chosen platform.now (values (view value.now))))
        result }
{
    let Tree::Items(items) = value else {
        return Err(RecipeFault::WrongKind(Key::Manifests));
    };
    if items.len() > MOST_MANIFESTS {
        return Err(RecipeFault::TooMany(Key::Manifests));
    }
    choice_among(platform, items)
}

/// The manifest of a recipe that is for the platform, where the recipe has manifests.
pub fn choice<'t>(platform: &Platform, recipe: &'t Tree) -> Result<Option<&'t Tree>, RecipeFault>
    requires { IsRegular (view recipe.now) }
    ensures { AnswerBy OutOfMemory
        (is_optional (spelled key.Manifests) (view recipe.now) (manifests_lines platform.now))
        (IsSeenAs (λ t. view t.now) (chosen_in platform.now (present (member_of (spelled key.Manifests) (view recipe.now)))))
        result }
{
    match optional(recipe, Key::Manifests) {
        Some(manifests) => choice_in(platform, manifests),
        None => Ok(None),
    }
}
