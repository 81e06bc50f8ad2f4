//! The id and the policy of a request.
ghost use Rattle.std.specs.Prelude.{◌≡◌, Some};
ghost use Rattle.serde_json.specs.Data.{string};
ghost use Rattle.serde_json.specs.Find.{get};
ghost use Rattle.nuc_base.specs.Tables.{AnswerBy};
ghost use Rattle.tree_core.specs.View.{view};
ghost use Rattle.deployment_doc.specs.Named.{IsPolicy, policy_word};
ghost use Rattle.local_deploy.specs.Lines.{at_optional, at_required, label_lines, policy_lines, value_of};
ghost use Rattle.local_deploy.specs.Spelled.{spelled};
ghost use Rattle.local_deploy.specs.declared.fault.Key.TheVariants as key;
ghost use Rattle.local_deploy.specs.declared.fault.LocalFault.TheVariants.{NoMemory as OutOfMemory};

use crate::fault::{Key, LocalFault};
use nuc_base::{Label, NameFault, Policy};
use std::alloc::Global;
use tree_core::Tree;

/// The policy of a request that names none.
const DEFAULT: Policy = Policy::Rollback;

pub(crate) fn id_of(alloc: Global, tree: &Tree) -> Result<Label, LocalFault>
    ensures { AnswerBy OutOfMemory
        (at_required key.DeploymentId (view tree.now) label_lines)
        (λ id. get (spelled key.DeploymentId) (view tree.now) ≡ Some (string id))
        result }
{
    match tree.member(Key::DeploymentId.text()) {
        Some(value) => label_of(alloc, value),
        None => Err(LocalFault::Missing(Key::DeploymentId)),
    }
}

fn label_of(alloc: Global, tree: &Tree) -> Result<Label, LocalFault>
    ensures { AnswerBy OutOfMemory (label_lines (view tree.now)) (λ l. view tree.now ≡ string l) result }
{
    let Tree::Text(text) = tree else {
        return Err(LocalFault::WrongKind(Key::DeploymentId));
    };
    match Label::read(alloc, text.as_str().as_bytes()) {
        Ok(label) => Ok(label),
        Err(NameFault::Bad) => Err(LocalFault::BadName(Key::DeploymentId)),
        Err(NameFault::NoMemory) => Err(LocalFault::NoMemory),
    }
}

pub(crate) fn policy_of(tree: &Tree) -> Result<Policy, LocalFault>
    ensures { AnswerBy OutOfMemory
        (at_optional key.FailureHandlingPolicy (view tree.now) policy_lines)
        (IsPolicy (value_of key.FailureHandlingPolicy (view tree.now)))
        result }
{
    match tree.present(Key::FailureHandlingPolicy.text()) {
        Some(policy) => policy_named(policy),
        None => Ok(DEFAULT),
    }
}

fn policy_named(policy: &Tree) -> Result<Policy, LocalFault>
    ensures { AnswerBy OutOfMemory (policy_lines (view policy.now)) (λ p. view policy.now ≡ string (policy_word p)) result }
{
    let Tree::Text(word) = policy else {
        return Err(LocalFault::WrongKind(Key::FailureHandlingPolicy));
    };
    if word.as_str() == "ROLLBACK" {
        return Ok(Policy::Rollback);
    }
    if word.as_str() == "DO_NOTHING" {
        return Ok(Policy::DoNothing);
    }
    Err(LocalFault::BadPolicy)
}
