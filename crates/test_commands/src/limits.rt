// Limits that `why` comes to: the recipes of a library, and the groups of a device.
use crate::plans::{is_row, leaves, library_of, source_of};
use library_core::MemoryLibrary;
use std::alloc::{AllocError, Global};
use std::test::Fail;
use test_support::push_entry;

const WHY: &str = "nucleus --root /gg why";

/// A row of so many recipes, none of which is one.
fn recipes_row(alloc: Global, recipes: u32, want: &str) -> Result<String, AllocError> {
    let mut row = String::from_str(alloc, "genesis|{}")?;
    for _recipe in 1..recipes {
        row.push_str(";{}")?;
    }
    row.push_str(r#"|{"deploymentId":"d1","targetArn":"g","components":{}}|"#)?;
    row.push_str(want)?;
    Ok(row)
}

/// Whether `why` over so many such recipes answers and prints this.
fn answers_to_recipes(alloc: Global, recipes: u32, want: &str) -> Result<bool, Fail> {
    let row = recipes_row(alloc, recipes, want)?;
    let is_right = is_row(alloc, WHY, row.as_str());
    drop(row);
    is_right
}

#[test]
fn a_library_has_1024_recipes(rt: HostRuntime) -> Result<(), Fail> {
    let first = "2|refused 2 recipe 0 Missing RecipeFormatVersion;";
    assert!(rt; answers_to_recipes(rt.alloc(), 1024, first)?);
    assert!(rt; answers_to_recipes(rt.alloc(), 1025, "14|refused 14 TooManyRecipes 1025;")?);
    Ok(())
}

/// The record with which a slot begins that was turned twice, up to its counts.
const TURNED: &[u8] =
    b"\x19\0\0\0\0\0\0\0\x02\0\0\0\x03/gg\0\0\0\x02t1\0\0\0\x062.12.0\0\0\0\x05linux\0\0\0\x05amd64";

/// Adds the entry of that record, for so many groups, no items and no closed deployments.
fn push_turned(alloc: Global, journal: &mut Vec<u8>, groups: u32) -> Result<(), AllocError> {
    let mut payload = Vec::from_slice(alloc, TURNED)?;
    payload.extend_from_slice(&groups.to_be_bytes())?;
    payload.extend_from_slice(&[0; 8])?;
    push_entry(journal, &payload)
}

/// Adds the entry of the group of this number, without requirements.
fn push_group(alloc: Global, journal: &mut Vec<u8>, number: u32) -> Result<(), AllocError> {
    let mut payload = Vec::from_slice(alloc, b"\x1a\0\0\0\x04g")?;
    payload.extend_from_slice(format!(in alloc; "{number:03}")?.as_bytes())?;
    payload.extend_from_slice(&[0; 4])?;
    push_entry(journal, &payload)
}

/// The journal of a device with so many groups, `g000` and so on.
fn journal_with(alloc: Global, groups: u32) -> Result<Vec<u8>, AllocError> {
    let mut journal = Vec::new(alloc);
    push_turned(alloc, &mut journal, groups)?;
    for number in 0..groups {
        push_group(alloc, &mut journal, number)?;
    }
    journal.push(0)?;
    Ok(journal)
}

/// Whether `why` of a document over this journal answers and prints this.
fn answers_over(
    alloc: Global,
    journal: &[u8],
    library: &mut MemoryLibrary,
    document: &str,
    want: &str,
) -> Result<bool, Fail> {
    let mut source = source_of(alloc, document, &[])?;
    let is_right = leaves(alloc, WHY, journal, library, &mut source, want);
    drop(source);
    is_right
}

/// The same over a library of one recipe.
fn answers(alloc: Global, journal: &[u8], document: &str, want: &str) -> Result<bool, Fail> {
    let mut library = library_of(alloc, "A 1.0.0", &[])?;
    let is_right = answers_over(alloc, journal, &mut library, document, want);
    drop(library);
    is_right
}

/// The same of a device with so many groups.
fn answers_to_groups(alloc: Global, groups: u32, document: &str, want: &str) -> Result<bool, Fail> {
    let journal = journal_with(alloc, groups)?;
    let is_right = answers(alloc, &journal, document, want);
    drop(journal);
    is_right
}

/// A document of a new group, of which no set is valid, and one of a group that is there.
const NEW_GROUP: &str =
    r#"{"deploymentId":"d1","targetArn":"h","components":{"B":{"componentVersion":"*"}}}"#;

const OLD_GROUP: &str =
    r#"{"deploymentId":"d1","targetArn":"g007","components":{"A":{"componentVersion":"*"}}}"#;

#[test]
fn a_device_has_512_groups(rt: HostRuntime) -> Result<(), Fail> {
    let alloc = rt.alloc();
    assert!(rt; answers_to_groups(alloc, 511, NEW_GROUP, "3|split B 0;")?);
    assert!(rt; answers_to_groups(alloc, 512, NEW_GROUP, "14|refused 14 TooManyGroups 513;")?);
    assert!(rt; answers_to_groups(alloc, 512, OLD_GROUP, "0|possible;")?);
    Ok(())
}
