// Rows of names, labels and pointers, and one copy and one printed text of each kind of value.
use nuc_base::{
    Artifact, Bytes, Copied, Exit, Label, List, Name, NameFault, NoMemory, Outcome, Pointer,
    PointerFault, Policy, Step, Text,
};
use std::alloc::Global;
use std::fmt::{Debug, Display};
use std::test::Fail;
use test_support::linux;

/// Whether the copy is the value.
fn is_copied<T: Copied + PartialEq + Drop>(alloc: Global, value: &T) -> Result<bool, NoMemory> {
    let copy = value.copy(alloc)?;
    Ok(copy == *value)
}

/// Whether the value is printed like that.
fn is_shown<T: Display>(alloc: Global, value: &T, wanted: &str) -> Result<bool, NoMemory> {
    Ok(format!(in alloc; "{value}")?.as_str() == wanted)
}

/// Whether the value is printed like that for those who look for a fault.
fn is_debugged<T: Debug>(alloc: Global, value: &T, wanted: &str) -> Result<bool, NoMemory> {
    Ok(format!(in alloc; "{value:?}")?.as_str() == wanted)
}

/// Whether the text is a name, which is read, copied and printed as that text.
fn is_name(alloc: Global, text: &str) -> Result<bool, NoMemory> {
    match Name::read(alloc, text.as_bytes()) {
        Ok(name) => Ok(
            name.as_str() == text && is_copied(alloc, &name)? && is_shown(alloc, &name, text)?,
        ),
        Err(_) => Ok(false),
    }
}

/// Whether the text is a label, which is read, copied and printed as that text.
fn is_label(alloc: Global, text: &str) -> Result<bool, NoMemory> {
    match Label::read(alloc, text.as_bytes()) {
        Ok(label) => Ok(
            label.as_str() == text && is_copied(alloc, &label)? && is_shown(alloc, &label, text)?,
        ),
        Err(_) => Ok(false),
    }
}

/// Bytes that are no name.
const NO_NAMES: &[&[u8]] = &[b"", b".", b"..", b"a b", b"a/b", b"\xc3\xa9"];

/// Bytes that are no label.
const NO_LABELS: &[&[u8]] = &[b"", b"a b", b"\x7f", b"\xc3\xa9"];

fn is_no_name(alloc: Global, bytes: &[u8]) -> bool {
    match Name::read(alloc, bytes) {
        Err(NameFault::Bad) => true,
        _ => false,
    }
}

fn is_no_label(alloc: Global, bytes: &[u8]) -> bool {
    match Label::read(alloc, bytes) {
        Err(NameFault::Bad) => true,
        _ => false,
    }
}

#[test]
fn names_are_read(rt: HostRuntime) -> Result<(), Fail> {
    let alloc = rt.alloc();
    assert!(rt; is_name(alloc, "com.example.Hello-World_1")?);
    assert!(rt; is_name(alloc, "com.example.Hello")?);
    for bad in NO_NAMES {
        assert!(rt; is_no_name(alloc, bad), "{bad:?}");
    }
    Ok(())
}

#[test]
fn labels_are_read(rt: HostRuntime) -> Result<(), Fail> {
    let alloc = rt.alloc();
    assert!(rt; is_label(alloc, "arn:aws/g1")?);
    assert!(rt; is_label(alloc, "arn:aws/\"g1")?);
    for bad in NO_LABELS {
        assert!(rt; is_no_label(alloc, bad), "{bad:?}");
    }
    Ok(())
}

/// Pointers of one token, which stands behind them (RFC 6901, section 5).
const TOKENS: &[(&str, &str)] = &[
    ("/a~1b", "a/b"),
    ("/c%d", "c%d"),
    ("/m~0n", "m~n"),
    ("/~01", "~1"),
    ("/", ""),
    ("/ ", " "),
];

const FAULTS: &[(&str, PointerFault)] = &[
    ("a", PointerFault::NoSlash),
    ("a~2", PointerFault::NoSlash),
    ("/~2", PointerFault::BadTilde),
    ("/~", PointerFault::BadTilde),
];

/// Whether the text is a pointer of that token alone.
fn is_token(alloc: Global, text: &str, token: &str) -> bool {
    match Pointer::read(alloc, text) {
        Ok(pointer) => match pointer.tokens().as_slice() {
            [only] => only.as_str() == token,
            _ => false,
        },
        Err(_) => false,
    }
}

fn is_root(alloc: Global, text: &str) -> bool {
    match Pointer::read(alloc, text) {
        Ok(pointer) => pointer.tokens().is_empty(),
        Err(_) => false,
    }
}

fn fault_of(alloc: Global, text: &str) -> Option<PointerFault> {
    match Pointer::read(alloc, text) {
        Ok(_) => None,
        Err(fault) => Some(fault),
    }
}

#[test]
fn pointers_are_read(rt: HostRuntime) {
    let alloc = rt.alloc();
    for (text, token) in TOKENS {
        assert!(rt; is_token(alloc, text, token), "{text}");
    }
    assert!(rt; is_root(alloc, ""));
    for (text, fault) in FAULTS {
        assert!(rt; fault_of(alloc, text) == Some(*fault), "{text}");
    }
}

/// Whether the copy of each is that value.
fn are_copied<T: Copied + PartialEq + Drop>(alloc: Global, values: &[T]) -> Result<bool, NoMemory> {
    for value in values {
        if !is_copied(alloc, value)? {
            return Ok(false);
        }
    }
    Ok(true)
}

const STEPS: &[Step] = &[
    Step::Install,
    Step::Run,
    Step::Startup,
    Step::Shutdown,
    Step::Recover,
    Step::Bootstrap,
];

const EXITS: &[Exit] = &[
    Exit::Code(-1),
    Exit::Signal,
    Exit::TimedOut,
    Exit::NotStarted,
    Exit::Lost,
];

const OUTCOMES: &[Outcome] = &[
    Outcome::Successful,
    Outcome::RollbackComplete,
    Outcome::RollbackNotRequested,
    Outcome::UnableToRollback,
];

#[test]
fn small_values_are_copied(rt: HostRuntime) -> Result<(), Fail> {
    let alloc = rt.alloc();
    assert!(rt; are_copied(alloc, STEPS)?);
    assert!(rt; are_copied(alloc, EXITS)?);
    assert!(rt; are_copied(alloc, &[Policy::Rollback, Policy::DoNothing])?);
    assert!(rt; are_copied(alloc, OUTCOMES)?);
    Ok(())
}

fn is_artifact_copied(alloc: Global) -> Result<bool, NameFault> {
    let file = Label::read(alloc, b"hello.py")?;
    let digest = Some([7; 32]);
    Ok(is_copied(alloc, &Artifact { file, digest })?)
}

fn is_platform_copied(alloc: Global) -> Result<bool, NameFault> {
    let platform = linux(alloc)?;
    Ok(is_copied(alloc, &platform)?)
}

/// The bytes 0 and 255, made in two steps.
fn two_bytes(alloc: Global) -> Result<Bytes, NoMemory> {
    let mut bytes = Bytes::from_slice(alloc, b"\x00")?;
    bytes.append(b"\xff")?;
    Ok(bytes)
}

fn are_bytes_copied(alloc: Global) -> Result<bool, NoMemory> {
    let bytes = two_bytes(alloc)?;
    Ok(
        bytes.copy(alloc)?.as_slice() == b"\x00\xff".as_slice()
            && is_debugged(alloc, &bytes, "[0, 255]")?,
    )
}

/// The texts "a" and "b".
fn two_texts(alloc: Global) -> Result<List<Text>, NoMemory> {
    let mut texts = List::empty(alloc);
    texts.push(Text::from_str(alloc, "a")?)?;
    texts.push(Text::from_str(alloc, "b")?)?;
    Ok(texts)
}

fn are_texts_copied(alloc: Global) -> Result<bool, NoMemory> {
    let texts = two_texts(alloc)?;
    Ok(
        texts.copy(alloc)?.as_slice() == texts.as_slice()
            && is_debugged(alloc, &texts, "[\"a\", \"b\"]")?,
    )
}

/// Whether a text that was made in two steps is printed as it is.
fn is_text_shown(alloc: Global) -> Result<bool, NoMemory> {
    let mut text = Text::from_str(alloc, "a\"")?;
    text.push_str("b")?;
    is_shown(alloc, &text, "a\"b")
}

#[test]
fn records_and_lists_are_copied(rt: HostRuntime) -> Result<(), Fail> {
    let alloc = rt.alloc();
    assert!(rt; is_artifact_copied(alloc)?);
    assert!(rt; is_platform_copied(alloc)?);
    assert!(rt; are_bytes_copied(alloc)?);
    assert!(rt; are_texts_copied(alloc)?);
    assert!(rt; is_text_shown(alloc)?);
    Ok(())
}
