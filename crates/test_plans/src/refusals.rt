// Expected lines are written out by hand from the table of printed lines.
use deployment_doc::{DocFault, Key};
use library_core::CandidatesFault;
use npm_ranges::Version;
use nuc_base::{Bytes, Label, List, Name, Outcome, Policy};
use plan_core::{PlanFault, Refusal};
use recipe_reader::RecipeFault;
use records::{Draft, DraftItem};
use refusal_lines::{plan_text, refusal_status, refusal_text};
use std::alloc::Global;
use std::test::Fail;
use tree_core::{Tree, TreeFault};

/// The status of each refusal and the line that it prints.
const ROWS: &[(u8, &str)] = &[
    (2, "refused 2 document TooLarge\n"),
    (2, "refused 2 document Missing targetArn\n"),
    (2, "refused 2 document BadRange A\n"),
    (0, "closed d1 SUCCESSFUL\n"),
    (10, "closed d1 FAILED_ROLLBACK_COMPLETE\n"),
    (11, "closed d1 FAILED_ROLLBACK_NOT_REQUESTED\n"),
    (12, "closed d1 FAILED_UNABLE_TO_ROLLBACK\n"),
    (18, "refused 18 Stale d1 5\n"),
    (7, "refused 7 library\n"),
    (14, "refused 14 TooManyRecipes 1025\n"),
    (2, "refused 2 recipe 0 ZipArtifact\n"),
    (2, "refused 2 RecipeDiffers A 1.0.0\n"),
    (2, "refused 2 TwoRecipes A 1.0.0\n"),
    (14, "refused 14 TooManyClosed 131072\n"),
    (14, "refused 14 TooManyGroups 513\n"),
    (3, "refused 3 NoVersion\n"),
    (14, "refused 14 TooManyComponents 129\n"),
    (14, "refused 14 ConfigTooLarge A 65537\n"),
    (15, ""),
];

fn repeated(alloc: Global, outcome: Outcome) -> Result<Refusal, Fail> {
    Ok(Refusal::Repeated(Label::read(alloc, b"d1")?, outcome))
}

fn name(alloc: Global) -> Result<Name, Fail> {
    Ok(Name::read(alloc, b"A")?)
}

fn version(alloc: Global) -> Result<Version, Fail> {
    Ok(Version::read(alloc, b"1.0.0")?)
}

fn candidates_refusal(alloc: Global, row: usize) -> Result<CandidatesFault, Fail> {
    Ok(match row {
        8 => CandidatesFault::Library,
        9 => CandidatesFault::TooManyRecipes(1025),
        10 => CandidatesFault::Recipe(0, RecipeFault::ZipArtifact),
        11 => CandidatesFault::RecipeDiffers(name(alloc)?, version(alloc)?),
        _ => CandidatesFault::TwoRecipes(name(alloc)?, version(alloc)?),
    })
}

fn plan_refusal(alloc: Global, row: usize) -> Result<PlanFault, Fail> {
    Ok(match row {
        13 => PlanFault::TooManyClosed(131_072),
        14 => PlanFault::TooManyGroups(513),
        15 => PlanFault::NoVersion,
        16 => PlanFault::TooManyComponents(129),
        _ => PlanFault::ConfigTooLarge(name(alloc)?, 65_537),
    })
}

/// The refusal of that row.
fn refusal_of(alloc: Global, row: usize) -> Result<Refusal, Fail> {
    match row {
        0 => Ok(Refusal::Document(DocFault::Tree(TreeFault::TooLarge))),
        1 => Ok(Refusal::Document(DocFault::Missing(Key::TargetArn))),
        2 => Ok(Refusal::Document(DocFault::BadRange(name(alloc)?))),
        3 => repeated(alloc, Outcome::Successful),
        4 => repeated(alloc, Outcome::RollbackComplete),
        5 => repeated(alloc, Outcome::RollbackNotRequested),
        6 => repeated(alloc, Outcome::UnableToRollback),
        7 => Ok(Refusal::Stale(Label::read(alloc, b"d1")?, 5)),
        8..=12 => Ok(Refusal::Candidates(candidates_refusal(alloc, row)?)),
        13..=17 => Ok(Refusal::Plan(plan_refusal(alloc, row)?)),
        _ => Ok(Refusal::NoMemory),
    }
}

fn item(alloc: Global, name: &str, version: &str) -> Result<DraftItem, Fail> {
    Ok(DraftItem {
        name: Name::read(alloc, name.as_bytes())?,
        version: Version::read(alloc, version.as_bytes())?,
        recipe: Bytes::empty(alloc),
        config: Tree::Null,
        artifacts: List::empty(alloc),
    })
}

fn push_draft_item(
    alloc: Global,
    items: &mut List<DraftItem>,
    name: &str,
    version: &str,
) -> Result<(), Fail> {
    let item = item(alloc, name, version)?;
    items.push(item)?;
    Ok(())
}

fn draft_items(alloc: Global) -> Result<List<DraftItem>, Fail> {
    let mut items = List::empty(alloc);
    push_draft_item(alloc, &mut items, "A", "2.0.0")?;
    push_draft_item(alloc, &mut items, "B", "1.0.0")?;
    Ok(items)
}

fn push_boot(alloc: Global, boots: &mut List<Name>, name: &str) -> Result<(), Fail> {
    let name = Name::read(alloc, name.as_bytes())?;
    boots.push(name)?;
    Ok(())
}

fn draft_boots(alloc: Global) -> Result<List<Name>, Fail> {
    let mut boots = List::empty(alloc);
    push_boot(alloc, &mut boots, "B")?;
    push_boot(alloc, &mut boots, "A")?;
    Ok(boots)
}

/// A plan of `A` 2.0.0 and `B` 1.0.0, whose bootstraps run in the other order.
fn draft(alloc: Global) -> Result<Draft, Fail> {
    let id = Label::read(alloc, b"d1")?;
    let group = Label::read(alloc, b"g")?;
    let boots = draft_boots(alloc)?;
    let items = draft_items(alloc)?;
    Ok(Draft {
        id,
        group,
        revision: 0,
        policy: Policy::Rollback,
        requirements: List::empty(alloc),
        items,
        boots,
    })
}

fn is_refusal_told(alloc: Global, refusal: &Refusal, status: u8, line: &str) -> Result<bool, Fail> {
    let text = refusal_text(alloc, refusal)?;
    Ok(refusal_status(refusal).number() == status && text.as_str() == line)
}

/// Whether the refusal of that row has this status and this line.
fn is_told(alloc: Global, row: usize, status: u8, line: &str) -> Result<bool, Fail> {
    let refusal = refusal_of(alloc, row)?;
    let is_told = is_refusal_told(alloc, &refusal, status, line);
    drop(refusal);
    is_told
}

/// Whether the plan has these lines.
fn is_planned(alloc: Global, lines: &str) -> Result<bool, Fail> {
    let draft = draft(alloc)?;
    let text = plan_text(alloc, &draft);
    drop(draft);
    Ok(text?.as_str() == lines)
}

#[test]
fn refusals_and_plans_are_told(rt: HostRuntime) -> Result<(), Fail> {
    let alloc = rt.alloc();
    for (row, (status, line)) in ROWS.iter().enumerate() {
        assert!(rt; is_told(alloc, row, *status, line)?, "{line}");
    }
    assert!(rt; is_planned(alloc, "plan A 2.0.0\nplan B 1.0.0\nboot B\nboot A\n")?);
    Ok(())
}
