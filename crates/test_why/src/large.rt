use crate::texts::told;
use nuc_base::NoMemory;
use std::alloc::{AllocError, Global};
use std::test::Fail;
use test_support::{library_of, wanted_of};
use why_not::explain;

/// Adds so many names, each of so many versions, with nothing that they need.
fn push_rows(rows: &mut String, names: u32, versions: u32) -> Result<(), AllocError> {
    for name in 0..names {
        for version in 1..=versions {
            write!(rows, "a{name:02}={version}.0.0;")?;
        }
    }
    Ok(())
}

/// What is wanted of them.
fn push_words(words: &mut String, names: u32) -> Result<(), AllocError> {
    for name in 0..names {
        write!(words, "a{name:02}:* ")?;
    }
    Ok(())
}

/// The certificate of a library in which `z` needs a version of `y` that there is not, beside names that have no part in it.
fn late_clash(alloc: Global, names: u32, versions: u32) -> Result<String, Fail> {
    clash_beside(alloc, names, versions, "y1;z1 y:^2")
}

/// The same with these rows of `y` and `z`.
fn clash_beside(alloc: Global, names: u32, versions: u32, clash: &str) -> Result<String, Fail> {
    let mut rows = String::new(alloc);
    push_rows(&mut rows, names, versions)?;
    rows.push_str(clash)?;
    let mut words = String::new(alloc);
    push_words(&mut words, names)?;
    words.push_str("z:*")?;
    told(alloc, rows.as_str(), words.as_str())
}

/// Few lines that name the conflict, where a plain certificate would have 4^40.
#[test]
fn tells_a_late_clash_in_few_lines(rt: HostRuntime) -> Result<(), Fail> {
    let text = late_clash(rt.alloc(), 40, 4)?;
    assert!(rt; text.as_str().lines().count() <= 10, "{text}");
    Ok(())
}

/// The same where it would have 10^100.
#[test]
fn tells_a_clash_beside_many_versions_in_few_lines(rt: HostRuntime) -> Result<(), Fail> {
    let text = late_clash(rt.alloc(), 100, 10)?;
    assert!(rt; text.as_str().lines().count() <= 50, "{text}");
    Ok(())
}

/// A plain certificate has at most 1,024 nodes. Each version of the other name is a branch, with the split of `z`, that of
/// `y` and a refusal below it: so with 341 versions it has 1 + 3 * 341 nodes, which are 1,024, in 1 + 6 * 341 lines; with one
/// version more the small one comes, which leaves that name out.
#[test]
fn tells_all_names_where_that_is_not_too_long(rt: HostRuntime) -> Result<(), Fail> {
    let text = late_clash(rt.alloc(), 1, 341)?;
    assert_eq!(rt; text.as_str().lines().count(), 2047);
    let text = late_clash(rt.alloc(), 1, 342)?;
    assert_eq!(rt; text.as_str().lines().count(), 5);
    Ok(())
}

/// With two versions of `y` each branch has four nodes below it, so that 256 versions make 1 + 4 * 256, one too many: the small
/// one has the splits of `z` and of `y`, their three branches and two refusals.
#[test]
fn tells_no_name_beside_where_that_is_one_node_too_long(rt: HostRuntime) -> Result<(), Fail> {
    let text = clash_beside(rt.alloc(), 1, 256, "y1;y2;z1 y:^3")?;
    assert_eq!(rt; text.as_str().lines().count(), 7);
    let text = clash_beside(rt.alloc(), 1, 255, "y1;y2;z1 y:^3")?;
    assert_eq!(rt; text.as_str().lines().count(), 2041);
    Ok(())
}

/// Adds so many versions of the name of this number, each of which needs the next name.
fn push_links(rows: &mut String, name: u32, versions: u32) -> Result<(), AllocError> {
    let next = name.saturating_add(1);
    for version in 1..=versions {
        write!(rows, "n{name:03}={version}.0.0 n{next:03}:;")?;
    }
    Ok(())
}

/// So many names in a chain, each of so many versions, of which the last needs a name that no candidate has.
fn chain(alloc: Global, names: u32, versions: u32) -> Result<String, AllocError> {
    let mut rows = String::new(alloc);
    for name in 0..names {
        push_links(&mut rows, name, versions)?;
    }
    rows.push_str("z1")?;
    Ok(rows)
}

/// The last line of the certificate of a chain of single versions, behind its blanks, and how many lines there are.
fn is_deep(alloc: Global, names: u32, lines: usize, last: &str) -> Result<bool, Fail> {
    let rows = chain(alloc, names, 1)?;
    let text = told(alloc, rows.as_str(), "n000:*")?;
    let found = text.as_str().lines().last().unwrap_or("");
    Ok(text.as_str().lines().count() == lines && found == last)
}

/// Each name is a split and a branch, and below the last one the missing name is a split.
#[test]
fn tells_a_chain_as_deep_as_its_names(rt: HostRuntime) -> Result<(), Fail> {
    let blanks = " ".repeat(rt.alloc(), 4 * 100)?;
    let last = format!(in rt.alloc(); "{blanks}split n100 0")?;
    assert!(rt; is_deep(rt.alloc(), 100, 201, last.as_str())?);
    Ok(())
}

/// Whether want of memory is answered of a chain of names with so many versions each.
fn wants_memory(alloc: Global, names: u32, versions: u32) -> Result<bool, Fail> {
    let rows = chain(alloc, names, versions)?;
    let candidates = library_of(alloc, rows.as_str())?;
    let wanted = wanted_of(alloc, "n000:*")?;
    Ok(matches!(explain(alloc, &candidates, &wanted), Err(NoMemory)))
}

/// With four names the splits are 1 + 10 + 100 + 1,000 and below each of the last 10,000 branches one more, which are 11,111;
/// with five they are 111,111, more than 65,536.
#[test]
fn gives_up_a_long_chain(rt: HostRuntime) -> Result<(), Fail> {
    let alloc = rt.alloc();
    assert!(rt; !wants_memory(alloc, 4, 10)?);
    assert!(rt; wants_memory(alloc, 5, 10)?);
    Ok(())
}

/// Three names of 39 versions have 1 + 39 + 39^2 + 39^3 splits, which are 60,880; of 40 they are 65,641, more than 65,536.
#[test]
fn gives_up_a_chain_at_its_limit(rt: HostRuntime) -> Result<(), Fail> {
    let alloc = rt.alloc();
    assert!(rt; !wants_memory(alloc, 3, 39)?);
    assert!(rt; wants_memory(alloc, 3, 40)?);
    Ok(())
}

/// As soon as a short one, but for what it takes to look at more candidates.
#[test]
fn gives_up_a_chain_of_thirty_names(rt: HostRuntime) -> Result<(), Fail> {
    assert!(rt; wants_memory(rt.alloc(), 30, 10)?);
    Ok(())
}
