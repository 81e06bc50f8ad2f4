ghost use Rattle.std.specs.Prelude.{◌≡◌, ◌∷◌, [], decimal, IfOk};
ghost use Rattle.status_text.specs.Lists.{texts};
ghost use Rattle.status_text.specs.Status.{line};
ghost use Rattle.refusal_lines.specs.Lines.{document_line, recipe_line, candidates_line, plan_fault_line, refusal_line};

use deployment_doc::DocFault;
use library_core::CandidatesFault;
use nuc_base::{NoMemory, Text};
use plan_core::{PlanFault, Refusal};
use recipe_reader::RecipeFault;
use status_text::{outcome_word, put_line};
use std::alloc::Global;

/// One line: a word, more words with a space before each, and a line feed.
fn one_line(alloc: Global, word: &str, more: &[&str]) -> Result<Text, NoMemory>
    ensures { IfOk result (λ text. text ≡ line word.now (texts more.now)) }
{
    let mut out = Text::empty(alloc);
    put_line(&mut out, word, more)?;
    Ok(out)
}

/// A line of a word and two more.
fn paired<'a>(alloc: Global, word: &str, first: &'a str, second: &'a str) -> Result<Text, NoMemory>
    ensures { IfOk result (λ text. text ≡ line word.now (first.now ∷ second.now ∷ [])) }
{
    one_line(alloc, word, &[first, second])
}

/// A line that ends with a number.
fn numbered(alloc: Global, word: &str, number: u64) -> Result<Text, NoMemory>
    ensures { IfOk result (λ text. text ≡ line word.now (decimal number ∷ [])) }
{
    let digits = format!(in alloc; "{number}")?;
    one_line(alloc, word, &[digits.as_str()])
}

/// A line that ends with a name and a number.
fn counted(alloc: Global, word: &str, name: &str, number: u64) -> Result<Text, NoMemory>
    ensures { IfOk result (λ text. text ≡ line word.now (name.now ∷ decimal number ∷ [])) }
{
    let digits = format!(in alloc; "{number}")?;
    paired(alloc, word, name, digits.as_str())
}

fn document_text(alloc: Global, fault: &DocFault) -> Result<Text, NoMemory>
    ensures { IfOk result (λ text. text ≡ document_line fault.now) }
{
    let reason = format!(in alloc; "{fault}")?;
    one_line(alloc, "refused 2 document", &[reason.as_str()])
}

fn recipe_text(alloc: Global, at: u32, fault: &RecipeFault) -> Result<Text, NoMemory>
    ensures { IfOk result (λ text. text ≡ recipe_line at fault.now) }
{
    let index = format!(in alloc; "{at}")?;
    let reason = format!(in alloc; "{fault}")?;
    paired(alloc, "refused 2 recipe", index.as_str(), reason.as_str())
}

fn candidates_text(alloc: Global, fault: &CandidatesFault) -> Result<Text, NoMemory>
    ensures { IfOk result (λ text. text ≡ candidates_line fault.now) }
{
    match fault {
        CandidatesFault::Library => one_line(alloc, "refused 7 library", &[]),
        CandidatesFault::TooManyRecipes(count) => {
            numbered(alloc, "refused 14 TooManyRecipes", u64::from(*count))
        }
        CandidatesFault::Recipe(at, fault) => recipe_text(alloc, *at, fault),
        CandidatesFault::RecipeDiffers(name, version) => {
            let version = version.text();
            paired(
                alloc,
                "refused 2 RecipeDiffers",
                name.as_str(),
                version.as_str(),
            )
        }
        CandidatesFault::TwoRecipes(name, version) => {
            let version = version.text();
            paired(
                alloc,
                "refused 2 TwoRecipes",
                name.as_str(),
                version.as_str(),
            )
        }
        CandidatesFault::NoMemory => Ok(Text::empty(alloc)),
    }
}

fn plan_fault_text(alloc: Global, fault: &PlanFault) -> Result<Text, NoMemory>
    ensures { IfOk result (λ text. text ≡ plan_fault_line fault.now) }
{
    match fault {
        PlanFault::TooManyClosed(count) => {
            numbered(alloc, "refused 14 TooManyClosed", u64::from(*count))
        }
        PlanFault::TooManyGroups(count) => {
            numbered(alloc, "refused 14 TooManyGroups", u64::from(*count))
        }
        PlanFault::NoVersion => one_line(alloc, "refused 3 NoVersion", &[]),
        PlanFault::TooManyComponents(count) => {
            numbered(alloc, "refused 14 TooManyComponents", u64::from(*count))
        }
        PlanFault::ConfigTooLarge(name, length) => {
            counted(alloc, "refused 14 ConfigTooLarge", name.as_str(), *length)
        }
        PlanFault::NoMemory => Ok(Text::empty(alloc)),
    }
}

/// The line that a command prints where this is the first refusal of its document: none for want of memory.
pub fn refusal_text(alloc: Global, refusal: &Refusal) -> Result<Text, NoMemory>
    ensures { IfOk result (λ text. text ≡ refusal_line refusal.now) }
{
    match refusal {
        Refusal::Document(fault) => document_text(alloc, fault),
        Refusal::Repeated(id, outcome) => {
            paired(alloc, "closed", id.as_str(), outcome_word(*outcome))
        }
        Refusal::Stale(id, revision) => {
            counted(alloc, "refused 18 Stale", id.as_str(), *revision)
        }
        Refusal::Candidates(fault) => candidates_text(alloc, fault),
        Refusal::Plan(fault) => plan_fault_text(alloc, fault),
        Refusal::NoMemory => Ok(Text::empty(alloc)),
    }
}
