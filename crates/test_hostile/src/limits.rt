// What is as large as it may be, and what is larger by one.
use disk_model::MemoryDisk;
use library_core::MemoryLibrary;
use nuc_base::{Bytes, List};
use std::alloc::{AllocError, Global};
use std::process::Abort;
use std::test::Fail;
use test_calls::{Asked, answer_alone, begin, call, files_with, recipes_of};

/// Rows in pieces, each so often as it says; in a piece `###` is the number of its turn. A row has the recipes of a library, a
/// document, and what `plan` of it over a new store answers and prints, with `;` for each line feed.
const ROWS: &[&[(u32, &str)]] = &[
    // Nesting.
    &[
        (1, r#"|{"a":"#),
        (63, "["),
        (63, "]"),
        (1, "}|2|refused 2 document Missing targetArn;"),
    ],
    &[
        (1, r#"|{"a":"#),
        (64, "["),
        (64, "]"),
        (1, "}|2|refused 2 document TooDeep;"),
    ],
    // The bytes of a document.
    &[
        (1, r#"|{"deploymentId":"d1","targetArn":"g"}"#),
        (524_251, " "),
        (1, "|0|"),
    ],
    &[
        (1, r#"|{"deploymentId":"d1","targetArn":"g"}"#),
        (524_252, " "),
        (1, "|2|refused 2 document TooLarge;"),
    ],
    // The components of a document.
    &[
        (1, r#"|{"deploymentId":"d1","targetArn":"g","components":{"#),
        (127, r#""n###":{"componentVersion":"*"},"#),
        (
            1,
            r#""z":{"componentVersion":"*"}}}|3|refused 3 NoVersion;"#,
        ),
    ],
    &[
        (1, r#"|{"deploymentId":"d1","targetArn":"g","components":{"#),
        (128, r#""n###":{"componentVersion":"*"},"#),
        (
            1,
            r#""z":{"componentVersion":"*"}}}|2|refused 2 document TooMany components;"#,
        ),
    ],
    // The components of a set.
    &[
        (126, "n### 1.0.0;"),
        (
            1,
            r#"y 1.0.0;{"RecipeFormatVersion":"2020-01-25","ComponentName":"z","ComponentVersion":"1.0.0","ComponentDependencies":{"y":{}}}"#,
        ),
        (1, r#"|{"deploymentId":"d1","targetArn":"g","components":{"#),
        (126, r#""n###":{"componentVersion":"*"},"#),
        (1, r#""z":{"componentVersion":"*"}}}|0|"#),
        (126, "plan n### 1.0.0;"),
        (1, "plan y 1.0.0;plan z 1.0.0;"),
    ],
    &[
        (127, "n### 1.0.0;"),
        (
            1,
            r#"y 1.0.0;{"RecipeFormatVersion":"2020-01-25","ComponentName":"z","ComponentVersion":"1.0.0","ComponentDependencies":{"y":{}}}"#,
        ),
        (1, r#"|{"deploymentId":"d1","targetArn":"g","components":{"#),
        (127, r#""n###":{"componentVersion":"*"},"#),
        (
            1,
            r#""z":{"componentVersion":"*"}}}|14|refused 14 TooManyComponents 129;"#,
        ),
    ],
    // The text of a configuration.
    &[
        (
            1,
            r#"A 1.0.0|{"deploymentId":"d1","targetArn":"g","components":{"A":{"componentVersion":"*","configurationUpdate":{"merge":{"k":""#,
        ),
        (65_528, "x"),
        (1, r#""}}}}}|0|plan A 1.0.0;"#),
    ],
    &[
        (
            1,
            r#"A 1.0.0|{"deploymentId":"d1","targetArn":"g","components":{"A":{"componentVersion":"*","configurationUpdate":{"merge":{"k":""#,
        ),
        (65_529, "x"),
        (1, r#""}}}}}|14|refused 14 ConfigTooLarge A 65537;"#),
    ],
];

/// Adds a piece in its turn.
fn push_turn(row: &mut String, piece: &str, turn: u32) -> Result<(), AllocError> {
    match piece.split_once("###") {
        Some((prefix, back)) => {
            row.push_str(prefix)?;
            write!(row, "{turn:03}")?;
            row.push_str(back)
        }
        None => row.push_str(piece),
    }
}

/// Adds a piece so often.
fn push_piece(row: &mut String, piece: &str, count: u32) -> Result<(), AllocError> {
    for turn in 0..count {
        push_turn(row, piece, turn)?;
    }
    Ok(())
}

/// The row of these pieces.
fn row_of(alloc: Global, pieces: &[(u32, &str)]) -> Result<String, AllocError> {
    let mut row = String::new(alloc);
    for (count, piece) in pieces {
        push_piece(&mut row, piece, *count)?;
    }
    Ok(row)
}

/// Whether `plan` over that disk comes to what the row says.
fn comes_over(alloc: Global, disk: &mut MemoryDisk, row: &str) -> Result<bool, Fail> {
    let mut fields = row.splitn(3, '|');
    let asked = Asked {
        recipes: fields.next().unwrap_or(""),
        command: "plan",
        document: fields.next().unwrap_or(""),
        ends: "",
    };
    let said = call(alloc, disk, asked)?;
    let is_wanted = fields.next() == Some(said.as_str());
    drop(said);
    Ok(is_wanted)
}

/// The same over a new store.
fn comes(alloc: Global, row: &str) -> Result<bool, Fail> {
    let mut disk = begin(alloc)?;
    let comes = comes_over(alloc, &mut disk, row);
    drop(disk);
    comes
}

/// The place of the first row of which something else comes, or how many there are.
fn first_wrong(alloc: Global, rows: &[&[(u32, &str)]]) -> Result<usize, Fail> {
    let mut at = 0usize;
    for pieces in rows {
        let row = row_of(alloc, pieces)?;
        let comes = comes(alloc, row.as_str());
        drop(row);
        if !comes? {
            return Ok(at);
        }
        at = at.saturating_add(1);
    }
    Ok(at)
}

#[test]
fn what_is_larger_by_one_is_refused(rt: HostRuntime) -> Result<(), Fail> {
    assert_eq!(rt; first_wrong(rt.alloc(), ROWS)?, ROWS.len());
    Ok(())
}

const WITH_A_FILE: &str =
    r#"{"RecipeFormatVersion":"2020-01-25","ComponentName":"com.x","ComponentVersion":"1.0.0","Manifests":[{"Artifacts":[{"URI":"s3://b/f"}]}]}"#;

const DOCUMENT: &str =
    r#"{"deploymentId":"d1","targetArn":"g","components":{"com.x":{"componentVersion":"*"}}}"#;

/// So many bytes.
fn bytes_of(alloc: Global, count: usize) -> Result<Bytes, AllocError> {
    let mut bytes = Vec::new(alloc);
    bytes.resize(count, b'x')?;
    Ok(Bytes::new(bytes))
}

/// A library of a component whose file has so many bytes.
fn library_of(alloc: Global, count: usize) -> Result<MemoryLibrary, Fail> {
    let bytes = bytes_of(alloc, count)?;
    let files = files_with(alloc, b"com.x", b"f", bytes)?;
    let recipes = recipes_of(alloc, WITH_A_FILE)?;
    Ok(MemoryLibrary::new(recipes, files, List::empty(alloc)))
}

/// Whether the deployment of that component says this over that disk.
fn says_over(alloc: Global, disk: &mut MemoryDisk, count: usize, want: &str) -> Result<bool, Fail> {
    let mut library = library_of(alloc, count)?;
    let said = answer_alone(alloc, disk, &mut library, "deploy", DOCUMENT, &[]);
    drop(library);
    let said = said?;
    let is_wanted = said.as_str() == want;
    drop(said);
    Ok(is_wanted)
}

/// Deploys a file that is too large, and leaves the device.
fn large_file_is_refused(
    rt: &impl Abort,
    alloc: Global,
    disk: &mut MemoryDisk,
) -> Result<(), Fail> {
    let refused = "14|refused 14 ArtifactTooLarge com.x/1.0.0/f 67108864;";
    assert!(rt; says_over(alloc, disk, 67_108_865, refused)?);
    // A start of 42 bytes, and no more.
    assert!(rt; disk.file("journal").len() == 48);
    Ok(())
}

#[test]
fn a_file_larger_by_one_is_refused(rt: HostRuntime) -> Result<(), Fail> {
    let mut disk = begin(rt.alloc())?;
    let refused = large_file_is_refused(&rt, rt.alloc(), &mut disk);
    drop(disk);
    refused
}
