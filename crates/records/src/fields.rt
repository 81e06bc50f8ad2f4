//! How each small value and each structure is written and read: a line for each field.
ghost use Rattle.std.specs.Prelude.{◌≡◌, ◌++◌, ℕ, List, Option, OnOk};
ghost use Rattle.records.specs.Codec.{prefix_at};
ghost use Rattle.records.specs.Layout as layout;
ghost use Rattle.records.specs.Gives.{ReadOutcome};
ghost use Rattle.records.specs.Stored.{Item, item_view};
ghost use Rattle.nuc_base.specs.declared.kinds.Exit as exits;
ghost use Rattle.nuc_base.specs.declared.kinds.Step as steps;
ghost use Rattle.nuc_base.specs.declared.kinds.Policy as policies;
ghost use Rattle.nuc_base.specs.declared.kinds.Outcome as outcomes;
ghost use Rattle.records.specs.declared.record.Origin as origins;
ghost use Rattle.records.specs.declared.record.Held as helds;
ghost use Rattle.records.specs.declared.record.Requirement as requirements;

use crate::coded::{Coded, number_of};
use crate::record::{Held, Item, Origin, Requirement};
use crate::stop::Stop;
use npm_ranges::{Range, Version};
use nuc_base::{Bytes, Exit, Label, List, Name, NoMemory, Outcome, Platform, Policy, Step, Text};
use std::alloc::Global;
use tree_core::Tree;

impl Coded for Exit {
    ghost Seen = { exits.Exit };

    ghost seen = { λ e. e };

    ghost spell = { layout.exit.spell };

    ghost at = { layout.exit.at };

    ghost fits = { layout.exit.Fits };

    ghost asks = { layout.exit.Asks };

    fn put(&self, alloc: Global, out: &mut Vec<u8>) -> Result<(), NoMemory> {
        match self {
            Exit::Code(code) => {
                out.push(0)?;
                out.extend_from_slice(&code.to_be_bytes())?;
            }
            Exit::Signal => out.push(1)?,
            Exit::TimedOut => out.push(2)?,
            Exit::NotStarted => out.push(3)?,
            Exit::Lost => out.push(4)?,
        }
        Ok(())
    }

    #[tactic(auto, unfolding(crate::specs::Layout::exit_at))]
    fn take(alloc: Global, bytes: &[u8]) -> Result<(Exit, &[u8]), Stop> {
        match bytes {
            [0, rest @ ..] => {
                let (code, rest) = number_of(rest)?;
                Ok((Exit::Code(code.cast_signed()), rest))
            }
            [1, rest @ ..] => Ok((Exit::Signal, rest)),
            [2, rest @ ..] => Ok((Exit::TimedOut, rest)),
            [3, rest @ ..] => Ok((Exit::NotStarted, rest)),
            [4, rest @ ..] => Ok((Exit::Lost, rest)),
            _ => Err(Stop::Bad),
        }
    }
}

impl Coded for Step {
    ghost Seen = { steps.Step };

    ghost seen = { λ s. s };

    ghost spell = { layout.step.spell };

    ghost at = { layout.step.at };

    ghost fits = { layout.step.Fits };

    ghost asks = { layout.step.Asks };

    fn put(&self, alloc: Global, out: &mut Vec<u8>) -> Result<(), NoMemory> {
        out.push(match self {
            Step::Install => 1,
            Step::Run => 2,
            Step::Startup => 3,
            Step::Shutdown => 4,
            Step::Recover => 5,
            Step::Bootstrap => 6,
        })?;
        Ok(())
    }

    fn take(alloc: Global, bytes: &[u8]) -> Result<(Step, &[u8]), Stop> {
        match bytes {
            [1, rest @ ..] => Ok((Step::Install, rest)),
            [2, rest @ ..] => Ok((Step::Run, rest)),
            [3, rest @ ..] => Ok((Step::Startup, rest)),
            [4, rest @ ..] => Ok((Step::Shutdown, rest)),
            [5, rest @ ..] => Ok((Step::Recover, rest)),
            [6, rest @ ..] => Ok((Step::Bootstrap, rest)),
            _ => Err(Stop::Bad),
        }
    }
}

impl Coded for Policy {
    ghost Seen = { policies.Policy };

    ghost seen = { λ p. p };

    ghost spell = { layout.policy.spell };

    ghost at = { layout.policy.at };

    ghost fits = { layout.policy.Fits };

    ghost asks = { layout.policy.Asks };

    fn put(&self, alloc: Global, out: &mut Vec<u8>) -> Result<(), NoMemory> {
        out.push(match self {
            Policy::Rollback => 0,
            Policy::DoNothing => 1,
        })?;
        Ok(())
    }

    fn take(alloc: Global, bytes: &[u8]) -> Result<(Policy, &[u8]), Stop> {
        match bytes {
            [0, rest @ ..] => Ok((Policy::Rollback, rest)),
            [1, rest @ ..] => Ok((Policy::DoNothing, rest)),
            _ => Err(Stop::Bad),
        }
    }
}

impl Coded for Outcome {
    ghost Seen = { outcomes.Outcome };

    ghost seen = { λ o. o };

    ghost spell = { layout.outcome.spell };

    ghost at = { layout.outcome.at };

    ghost fits = { layout.outcome.Fits };

    ghost asks = { layout.outcome.Asks };

    fn put(&self, alloc: Global, out: &mut Vec<u8>) -> Result<(), NoMemory> {
        out.push(match self {
            Outcome::Successful => 1,
            Outcome::RollbackComplete => 2,
            Outcome::RollbackNotRequested => 3,
            Outcome::UnableToRollback => 4,
        })?;
        Ok(())
    }

    fn take(alloc: Global, bytes: &[u8]) -> Result<(Outcome, &[u8]), Stop> {
        match bytes {
            [1, rest @ ..] => Ok((Outcome::Successful, rest)),
            [2, rest @ ..] => Ok((Outcome::RollbackComplete, rest)),
            [3, rest @ ..] => Ok((Outcome::RollbackNotRequested, rest)),
            [4, rest @ ..] => Ok((Outcome::UnableToRollback, rest)),
            _ => Err(Stop::Bad),
        }
    }
}

impl Coded for Origin {
    ghost Seen = { origins.Origin };

    ghost seen = { λ o. o };

    ghost spell = { layout.origin.spell };

    ghost at = { layout.origin.at };

    ghost fits = { layout.origin.Fits };

    ghost asks = { layout.origin.Asks };

    fn put(&self, alloc: Global, out: &mut Vec<u8>) -> Result<(), NoMemory> {
        self.root.put(alloc, out)?;
        self.thing.put(alloc, out)?;
        self.nucleus.put(alloc, out)?;
        self.platform.os.put(alloc, out)?;
        self.platform.architecture.put(alloc, out)
    }

    fn take(alloc: Global, bytes: &[u8]) -> Result<(Origin, &[u8]), Stop> {
        let (root, rest) = Text::take(alloc, bytes)?;
        let (thing, rest) = Label::take(alloc, rest)?;
        let (nucleus, rest) = Version::take(alloc, rest)?;
        let (os, rest) = Label::take(alloc, rest)?;
        let (architecture, rest) = Label::take(alloc, rest)?;
        let platform = Platform { os, architecture };
        Ok((
            Origin {
                root,
                thing,
                nucleus,
                platform,
            },
            rest,
        ))
    }
}

fn digest_of(bytes: &[u8]) -> Result<([u8; 32], &[u8]), Stop>
    ensures { ReadOutcome (λ x. (x.0, x.1.now)) result (prefix_at 32 bytes.now) }
{
    if bytes.len() < 32 {
        return Err(Stop::Bad);
    }
    let (prefix, rest) = bytes.split_at(32);
    let mut digest = [0; 32];
    digest.copy_from_slice(prefix);
    Ok((digest, rest))
}

impl Coded for Held {
    ghost Seen = { helds.Held };

    ghost seen = { λ h. h };

    ghost spell = { layout.held.spell };

    ghost at = { layout.held.at };

    ghost fits = { layout.held.Fits };

    ghost asks = { layout.held.Asks };

    fn put(&self, alloc: Global, out: &mut Vec<u8>) -> Result<(), NoMemory> {
        self.file.put(alloc, out)?;
        out.extend_from_slice(&self.digest)?;
        Ok(())
    }

    fn take(alloc: Global, bytes: &[u8]) -> Result<(Held, &[u8]), Stop> {
        let (file, rest) = Label::take(alloc, bytes)?;
        let (digest, rest) = digest_of(rest)?;
        Ok((Held { file, digest }, rest))
    }
}

impl Coded for Requirement {
    ghost Seen = { requirements.Requirement };

    ghost seen = { λ r. r };

    ghost spell = { layout.requirement.spell };

    ghost at = { layout.requirement.at };

    ghost fits = { layout.requirement.Fits };

    ghost asks = { layout.requirement.Asks };

    fn put(&self, alloc: Global, out: &mut Vec<u8>) -> Result<(), NoMemory> {
        self.name.put(alloc, out)?;
        self.range.put(alloc, out)
    }

    fn take(alloc: Global, bytes: &[u8]) -> Result<(Requirement, &[u8]), Stop> {
        let (name, rest) = Name::take(alloc, bytes)?;
        let (range, rest) = Range::take(alloc, rest)?;
        Ok((Requirement { name, range }, rest))
    }
}

impl Coded for Item {
    ghost Seen = { Item };

    ghost seen = { item_view };

    ghost spell = { layout.item.spell };

    ghost at = { layout.item.at };

    ghost fits = { layout.item.Fits };

    ghost asks = { layout.item.Asks };

    fn put(&self, alloc: Global, out: &mut Vec<u8>) -> Result<(), NoMemory> {
        self.name.put(alloc, out)?;
        self.version.put(alloc, out)?;
        self.recipe.put(alloc, out)?;
        self.config.put(alloc, out)?;
        self.artifacts.put(alloc, out)
    }

    fn take(alloc: Global, bytes: &[u8]) -> Result<(Item, &[u8]), Stop> {
        let (name, rest) = Name::take(alloc, bytes)?;
        let (version, rest) = Version::take(alloc, rest)?;
        let (recipe, rest) = Bytes::take(alloc, rest)?;
        let (config, rest) = Tree::take(alloc, rest)?;
        let (artifacts, rest) = List::<Held>::take(alloc, rest)?;
        Ok((
            Item {
                name,
                version,
                recipe,
                config,
                artifacts,
            },
            rest,
        ))
    }
}
