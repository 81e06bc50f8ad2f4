use host_files::absolute_words;
use std::alloc::{AllocError, Global};
use std::env;
use std::test::Fail;

/// These words, owned.
fn words(alloc: Global, texts: &[&str]) -> Result<Vec<String>, AllocError> {
    let mut words = Vec::new(alloc);
    for text in texts {
        words.push(String::from_str(alloc, text)?)?;
    }
    Ok(words)
}

/// Whether these are the words.
fn are(words: &Vec<String>, texts: &[&str]) -> bool {
    words.len() == texts.len()
        && words
            .iter()
            .zip(texts.iter())
            .all(|(word, text)| word.as_str() == *text)
}

/// Whether the words with that DIR become the others.
fn become_these(rt: &HostRuntime, from: &[&str], root: &str, to: &[&str]) -> Result<bool, Fail> {
    let words = absolute_words(rt, words(rt.alloc(), from)?, root)?;
    Ok(are(&words, to))
}

/// Whether a DIR that is a word of its own, one that is joined, an empty one and an absolute one become these.
fn become_absolute(rt: &HostRuntime, store: &str, joined: &str, whole: &str) -> Result<bool, Fail> {
    let next = ["n", "--root", "store", "plan"];
    let is_next = become_these(rt, &next, "store", &["n", "--root", store, "plan"])?;
    let one = ["n", "plan", "--root=store"];
    let is_joined = become_these(rt, &one, "store", &["n", "plan", joined])?;
    let none = ["n", "plan", "--root="];
    let is_empty = become_these(rt, &none, "", &["n", "plan", whole])?;
    let kept = ["n", "plan", "--root", "/s/.."];
    Ok(is_next && is_joined && is_empty && become_these(rt, &kept, "/s/..", &kept)?)
}

/// So it is below this folder.
fn become_absolute_in(rt: &HostRuntime, here: &str) -> Result<bool, Fail> {
    let alloc = rt.alloc();
    let store = format!(in alloc; "{here}/store")?;
    let joined = format!(in alloc; "--root={here}/store")?;
    let whole = format!(in alloc; "--root={here}")?;
    become_absolute(rt, store.as_str(), joined.as_str(), whole.as_str())
}

#[test]
fn a_relative_root_becomes_absolute(rt: HostRuntime) -> Result<(), Fail> {
    let here = env::current_dir(&rt)?;
    let are_absolute = become_absolute_in(&rt, here.as_str());
    drop(here);
    assert!(rt; are_absolute?);
    Ok(())
}
