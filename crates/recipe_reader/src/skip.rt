// When a step is skipped.
ghost use Rattle.std.specs.Prelude.{◌≡◌, ◌≢◌, ◌∷◌, ◌++◌, [], ℕ, List, MatchOption, true};
ghost use Rattle.serde_json.specs.Data.{string};
ghost use Rattle.nuc_base.specs.Tables.{AnswerBy, on};
ghost use Rattle.tree_core.specs.View.{view};
ghost use Rattle.tree_core.specs.Regular.{IsRegular};
ghost use Rattle.recipe_reader.specs.Spelled.{spelled};
ghost use Rattle.recipe_reader.specs.Keys.{keyed as keyed_of};
ghost use Rattle.recipe_reader.specs.Steps.{is_blank, trim_start as start_trimmed, trim_end as end_trimmed, trimmed as both_trimmed, IsSkip, IsSkipOf};
ghost use Rattle.recipe_reader.specs.Steps.{skip_lines};
ghost use Rattle.recipe_reader.specs.declared.fault.Key.TheVariants as key;
ghost use Rattle.recipe_reader.specs.declared.fault.RecipeFault.TheVariants.{NoMemory as OutOfMemory};

use crate::fault::{Key, RecipeFault};
use crate::keys::keyed;
use crate::recipe::Skip;
use nuc_base::Text;
use std::alloc::Global;
use tree_core::Tree;

/// The text behind a blank at its beginning.
fn past_blank(text: &str) -> Option<&str>
    ensures { MatchOption result
        ((x : ℕ) (rest : List ℕ) → is_blank x ≡ true → text.now ≢ x ∷ rest)
        (λ after. (x : ℕ) × (is_blank x ≡ true) × (text.now ≡ x ∷ after.now)) }
{
    match text.strip_prefix(' ') {
        Some(after) => Some(after),
        None => text.strip_prefix('\t'),
    }
}

/// The text before a blank at its end.
fn before_blank(text: &str) -> Option<&str>
    ensures { MatchOption result
        ((x : ℕ) (prefix : List ℕ) → is_blank x ≡ true → text.now ≢ prefix ++ x ∷ [])
        (λ prefix. (x : ℕ) × (is_blank x ≡ true) × (text.now ≡ prefix.now ++ x ∷ [])) }
{
    match text.strip_suffix(' ') {
        Some(prefix) => Some(prefix),
        None => text.strip_suffix('\t'),
    }
}

fn trim_start(text: &str) -> &str
    ensures { result.now ≡ start_trimmed text.now }
{
    let mut rest = text;
    'blanks: while let Some(after) = past_blank(rest) {
        rest = after;
    }
    rest
}

fn trim_end(text: &str) -> &str
    ensures { result.now ≡ end_trimmed text.now }
{
    let mut rest = text;
    'blanks: while let Some(prefix) = before_blank(rest) {
        rest = prefix;
    }
    rest
}

/// What is asked for, behind its word.
fn trimmed(text: &str) -> &str
    ensures { result.now ≡ both_trimmed text.now }
{
    trim_end(trim_start(text))
}

fn skip_of(alloc: Global, text: &str) -> Result<Skip, RecipeFault>
    ensures { AnswerBy OutOfMemory (skip_lines (string text.now)) (IsSkip (string text.now)) result }
{
    if let Some(rest) = text.strip_prefix("onpath ") {
        let program = trimmed(rest);
        if program.is_empty() {
            return Err(RecipeFault::BadSkipif);
        }
        return Ok(Skip::OnPath(Text::from_str(alloc, program)?));
    }
    if let Some(rest) = text.strip_prefix("exists ") {
        let file = trimmed(rest);
        if file.is_empty() {
            return Err(RecipeFault::BadSkipif);
        }
        return Ok(Skip::Exists(Text::from_str(alloc, file)?));
    }
    Err(RecipeFault::BadSkipif)
}

fn skip_in(alloc: Global, value: &Tree) -> Result<Skip, RecipeFault>
    ensures { AnswerBy OutOfMemory (skip_lines (view value.now)) (IsSkip (view value.now)) result }
{
    let Tree::Text(text) = value else {
        return Err(RecipeFault::BadSkipif);
    };
    skip_of(alloc, text.as_str())
}

/// When the step is skipped, where its object says so.
pub fn skip_at(alloc: Global, step: &Tree) -> Result<Option<Skip>, RecipeFault>
    requires { IsRegular (view step.now) }
    ensures { AnswerBy OutOfMemory
        (on (keyed_of (spelled key.Skipif) (view step.now)) skip_lines)
        (IsSkipOf (keyed_of (spelled key.Skipif) (view step.now)))
        result }
{
    match keyed(step, Key::Skipif) {
        Some(value) => Ok(Some(skip_in(alloc, value)?)),
        None => Ok(None),
    }
}
