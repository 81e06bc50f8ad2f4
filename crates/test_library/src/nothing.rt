// A library without recipes and artifacts.
use library_core::{Library, LibraryFault, NoLibrary, Piece};
use npm_ranges::Version;
use nuc_base::{Bytes, Label, Name};
use std::alloc::Global;
use std::test::Fail;

/// What is answered to the question for an artifact.
fn piece<L: Library>(
    alloc: Global,
    library: &mut L,
    name: &Name,
    version: &Version,
    file: &Label,
) -> Result<Piece, LibraryFault> {
    let mut into = [b'#'; 4];
    library.artifact(alloc, name, version, file, 0, &mut into)
}

fn is_nothing(recipe: &Result<Bytes, LibraryFault>) -> bool {
    match recipe {
        Ok(bytes) => bytes.is_empty(),
        Err(_) => false,
    }
}

#[test]
fn nothing_is_there(rt: HostRuntime) -> Result<(), Fail> {
    let alloc = rt.alloc();
    let name = Name::read(alloc, b"A")?;
    let version = Version::read(alloc, b"1.0.0")?;
    let file = Label::read(alloc, b"a.bin")?;
    let mut library = NoLibrary;
    assert_eq!(rt; library.count(alloc), Ok(0));
    assert!(rt; is_nothing(&library.recipe(alloc, 0)));
    assert_eq!(rt;
        piece(alloc, &mut library, &name, &version, &file),
        Ok(Piece::Missing)
    );
    Ok(())
}
