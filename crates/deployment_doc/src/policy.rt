ghost use Rattle.std.specs.Prelude.{◌≡◌};
ghost use Rattle.serde_json.specs.Data.{string};
ghost use Rattle.serde_json.specs.Find.{get};
ghost use Rattle.nuc_base.specs.Tables.{AnswerBy};
ghost use Rattle.tree_core.specs.View.{view};
ghost use Rattle.tree_core.specs.Parts.{present};
ghost use Rattle.deployment_doc.specs.Spelled.{spelled};
ghost use Rattle.deployment_doc.specs.Lines.{policies_lines, policy_lines, at_optional};
ghost use Rattle.deployment_doc.specs.Named.{IsPolicy, inner, policy_word};
ghost use Rattle.deployment_doc.specs.declared.fault.DocFault.TheVariants.{NoMemory as OutOfMemory};
ghost use Rattle.deployment_doc.specs.declared.fault.Key.TheVariants as key;

use crate::fault::{DocFault, Key};
use nuc_base::Policy;
use tree_core::Tree;

/// The policy of a document that names none.
const DEFAULT: Policy = Policy::Rollback;

pub(crate) fn policy_of(tree: &Tree) -> Result<Policy, DocFault>
    ensures { AnswerBy OutOfMemory
        (at_optional key.DeploymentPolicies (view tree.now) policies_lines)
        (IsPolicy (inner (present (get (spelled key.DeploymentPolicies) (view tree.now))) (spelled key.FailureHandlingPolicy)))
        result }
{
    match tree.present(Key::DeploymentPolicies.text()) {
        Some(policies) => policy_in(policies),
        None => Ok(DEFAULT),
    }
}

fn policy_in(policies: &Tree) -> Result<Policy, DocFault>
    ensures { AnswerBy OutOfMemory (policies_lines (view policies.now))
        (IsPolicy (present (get (spelled key.FailureHandlingPolicy) (view policies.now))))
        result }
{
    let Tree::Fields(_) = policies else {
        return Err(DocFault::WrongKind(Key::DeploymentPolicies));
    };
    match policies.present(Key::FailureHandlingPolicy.text()) {
        Some(policy) => policy_named(policy),
        None => Ok(DEFAULT),
    }
}

fn policy_named(policy: &Tree) -> Result<Policy, DocFault>
    ensures { AnswerBy OutOfMemory (policy_lines (view policy.now)) (λ p. view policy.now ≡ string (policy_word p)) result }
{
    let Tree::Text(word) = policy else {
        return Err(DocFault::WrongKind(Key::FailureHandlingPolicy));
    };
    if word.as_str() == "ROLLBACK" {
        return Ok(Policy::Rollback);
    }
    if word.as_str() == "DO_NOTHING" {
        return Ok(Policy::DoNothing);
    }
    Err(DocFault::BadPolicy)
}
