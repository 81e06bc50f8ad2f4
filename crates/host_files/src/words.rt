//! The words of the command line, with a DIR that means the same in each folder.
use nuc_base::NoMemory;
use std::alloc::{AllocError, Global};
use std::rt::Env;
use std::{env, io};

/// The option whose value is DIR.
const ROOT: &str = "--root";

/// The words of a command with DIR made absolute by the current folder, which an empty DIR is. One that is absolute stays as
/// it is written. Where the current folder cannot be had there are no words. The first word is the program's name.
pub fn absolute_words<R: Env + AllocGlobal>(
    rt: &R,
    words: Vec<String>,
    root: &str,
) -> Result<Vec<String>, NoMemory> {
    if root.starts_with('/') {
        return Ok(words);
    }
    let alloc = rt.alloc();
    match env::current_dir(rt) {
        Ok(folder) => {
            let root = path_in(alloc, folder.as_str(), root)?;
            Ok(with_root(alloc, words.as_slice(), root.as_str())?)
        }
        Err(error) if error.kind() == io::ErrorKind::OutOfMemory => Err(NoMemory),
        Err(_) => Ok(Vec::new(alloc)),
    }
}

/// The path of what has that name in the folder, and of the folder where the name is empty.
fn path_in(alloc: Global, folder: &str, name: &str) -> Result<String, AllocError> {
    if name.is_empty() {
        return String::from_str(alloc, folder);
    }
    let folder = folder.strip_suffix('/').unwrap_or(folder);
    format!(in alloc; "{folder}/{name}")
}

/// The words with this value of the option for DIR, which stands behind it or in the same word.
fn with_root(alloc: Global, words: &[String], root: &str) -> Result<Vec<String>, AllocError> {
    let mut replaced = Vec::with_capacity(alloc, words.len())?;
    for (at, word) in words.iter().enumerate() {
        let is_value = at > 1 && words[at - 1].as_str() == ROOT;
        let next = word_with_root(alloc, word.as_str(), is_value, root)?;
        replaced.push(next)?;
    }
    Ok(replaced)
}

/// The value of the option for DIR, or a word in which it stands behind that option, becomes this one. Each other word stays.
fn word_with_root(
    alloc: Global,
    word: &str,
    is_value: bool,
    root: &str,
) -> Result<String, AllocError> {
    if is_value {
        return String::from_str(alloc, root);
    }
    match word.split_once('=') {
        Some((option, _)) if option == ROOT => format!(in alloc; "{option}={root}"),
        _ => String::from_str(alloc, word),
    }
}
