use nuc_base::{Bytes, Exit, Label, List, Outcome, Status, Text};
use sha2::{Digest, Sha256};
use std::alloc::{AllocError, Global};
use std::test::Fail;
use step_runner::{Command, Runner, Waited};
use workload::{DrawRunner, Tally, count_outcomes, draw, tally_text, wants_memory};

/// What a seed gives: how many recipes, the document at some place, the SHA-256 of all recipes, all documents and the state
/// after them, each with a line feed at its end, and how the first forty children of a runner end that goes on
/// from there, each as the digit of its code.
struct Row {
    seed: u64,
    recipes: usize,
    place: usize,
    document: &'static str,
    digest: &'static str,
    codes: &'static str,
}

/// Each row was had by `examples/workload/draw.py`, whose output has the recipes, the documents, the state and the digest.
/// The codes are those of forty more draws: 1 where a draw is a multiple of 8.
const ROWS: [Row; 3] = [
    Row {
        seed: 0,
        recipes: 51,
        place: 26,
        document: r#"{"components":{"w.c21":{"componentVersion":"^1.0.0"}},"deploymentId":"w26","targetArn":"g2"}"#,
        digest: "e3b39e54e2f65482c842ce5c93bbdbd4d71b884b89ba833255759a3a709038ba",
        codes: "1000000001000101000000100000000000100001",
    },
    Row {
        seed: 1,
        recipes: 46,
        place: 31,
        document: r#"{"components":{"w.c08":{"componentVersion":"^1.0.0"}},"deploymentId":"w31","targetArn":"g0"}"#,
        digest: "4c6c01f31da0474cf65263aa913f9bbb03413bf9fd2d6e04eebf5394c6b3f1f9",
        codes: "0000000000000000100000100000000000000000",
    },
    Row {
        seed: 18_446_744_073_709_551_615,
        recipes: 52,
        place: 31,
        document: r#"{"components":{"w.c09":{"componentVersion":"^1.0.0"}},"deploymentId":"w31","targetArn":"g1"}"#,
        digest: "23906261293ffb9b9516278d9ff76fc7312c45b82b07fccb470679896cb6f567",
        codes: "0100100001100000100011101000000000000000",
    },
];

/// Adds each text and a line feed.
fn put_lines(lines: &mut Vec<u8>, texts: &[Bytes]) -> Result<(), AllocError> {
    for text in texts {
        lines.extend_from_slice(text.as_slice())?;
        lines.extend_from_slice(b"\n")?;
    }
    Ok(())
}

fn digest_of(
    alloc: Global,
    recipes: &[Bytes],
    documents: &[Bytes],
    state: u64,
) -> Result<String, Fail> {
    let mut lines = Vec::new(alloc);
    put_lines(&mut lines, recipes)?;
    put_lines(&mut lines, documents)?;
    lines.extend_from_slice(format!(in alloc; "{state}\n")?.as_bytes())?;
    let digest = Sha256::digest(lines.as_slice());
    Ok(hex::encode(alloc, digest.as_slice())?)
}

fn is_at(texts: &[Bytes], at: usize, text: &str) -> bool {
    match texts.get(at) {
        Some(found) => found.as_slice() == text.as_bytes(),
        None => false,
    }
}

fn command(alloc: Global) -> Result<Command, Fail> {
    Ok(Command {
        script: Text::from_str(alloc, "start")?,
        env: List::empty(alloc),
        folder: Text::from_str(alloc, "/w")?,
    })
}

/// A start and the end of its child, by way of the bound: the digit of its code.
fn end_of<R: Runner>(runner: &mut R, command: &Command) -> char {
    if runner.start(command).is_err() {
        return 'r';
    }
    match runner.wait(1000) {
        Waited::Ended(_, Exit::Code(0)) => '0',
        Waited::Ended(_, Exit::Code(1)) => '1',
        _ => '?',
    }
}

/// A child that is killed as soon as it was started, by way of the bound.
fn start_and_kill<R: Runner>(runner: &mut R, command: &Command) -> bool {
    match runner.start(command) {
        Ok(child) => {
            runner.kill(child);
            true
        }
        Err(_) => false,
    }
}

fn codes(alloc: Global, state: u64, count: usize) -> Result<String, Fail> {
    let mut runner = DrawRunner::new(alloc, state);
    let command = command(alloc)?;
    let mut codes = String::new(alloc);
    for _ in 0..count {
        codes.push(end_of(&mut runner, &command))?;
    }
    Ok(codes)
}

#[test]
fn a_seed_gives_its_recipes_documents_and_ends(rt: HostRuntime) -> Result<(), Fail> {
    let alloc = rt.alloc();
    for row in &ROWS {
        let drawn = draw(alloc, row.seed)?;
        let (recipes, documents) = (drawn.recipes.as_slice(), drawn.documents.as_slice());
        assert_eq!(rt; recipes.len(), row.recipes);
        assert_eq!(rt; documents.len(), 32);
        assert!(rt; is_at(documents, row.place, row.document));
        let digest = digest_of(alloc, recipes, documents, drawn.state)?;
        assert_eq!(rt; digest.as_str(), row.digest);
        let codes = codes(alloc, drawn.state, 40)?;
        assert_eq!(rt; codes.as_str(), row.codes);
    }
    Ok(())
}

/// The first two draws from 14,599,060,038,017,165,223 are one that fails and one that does not.
#[test]
fn children_end_by_their_numbers(rt: HostRuntime) -> Result<(), Fail> {
    let alloc = rt.alloc();
    let mut runner = DrawRunner::new(alloc, 14_599_060_038_017_165_223);
    let command = command(alloc)?;
    assert!(rt; runner.start(&command) == Ok(0));
    assert!(rt; start_and_kill(&mut runner, &command));
    assert!(rt; runner.start(&command) == Ok(2) && runner.start(&command) == Ok(3));
    assert!(rt; runner.wait(1000) == Waited::Ended(0, Exit::Code(1)));
    assert!(rt; runner.wait(1000) == Waited::Ended(2, Exit::Code(0)));
    assert!(rt; runner.start(&command) == Ok(4));
    assert!(rt; runner.wait(0) == Waited::Ended(3, Exit::Code(0)));
    assert!(rt; runner.wait(0) == Waited::Ended(4, Exit::Code(0)) && runner.moment() == 0);
    assert!(rt; runner.wait(70) == Waited::Elapsed && runner.moment() == 70);
    let path = Text::from_str(alloc, "/bin/sh")?;
    assert!(rt; !runner.exists(&path) && !runner.on_path(&path));
    assert!(rt; runner.entries().len() == 13);
    Ok(())
}

fn closed(alloc: Global, outcomes: &[Outcome]) -> Result<Vec<(Label, Outcome)>, Fail> {
    let mut closed = Vec::new(alloc);
    for outcome in outcomes {
        closed.push((Label::read(alloc, b"w")?, *outcome))?;
    }
    Ok(closed)
}

#[test]
fn a_line_tells_the_counts(rt: HostRuntime) -> Result<(), Fail> {
    let alloc = rt.alloc();
    let outcomes = [
        Outcome::RollbackComplete,
        Outcome::Successful,
        Outcome::UnableToRollback,
        Outcome::RollbackNotRequested,
        Outcome::Successful,
        Outcome::RollbackComplete,
        Outcome::Successful,
    ];
    let tally = count_outcomes(closed(alloc, &outcomes)?.as_slice());
    let wanted = Tally {
        successful: 3,
        rolled_back: 2,
        broken: 1,
    };
    assert!(rt; tally == wanted);
    let line = tally_text(alloc, 18_446_744_073_709_551_615, tally)?;
    let text =
        "workload 18446744073709551615: 32 deployments, 3 successful, 2 rolled back, 1 broken\n";
    assert_eq!(rt; line.as_str(), text);
    for status in [Status::Disk, Status::Edge, Status::Library, Status::Memory] {
        assert!(rt; wants_memory(status));
    }
    assert!(rt; !wants_memory(Status::Done) && !wants_memory(Status::Unable));
    Ok(())
}
