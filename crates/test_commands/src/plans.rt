// Plans by the top call, over stores, libraries and documents in memory.
use crate::calls;
use disk_model::{Disk, DiskFault, MemoryDisk};
use edges::MemorySource;
use library_core::MemoryLibrary;
use nuc_base::{Bytes, List};
use std::alloc::Global;
use std::test::Fail;
use test_support::{journal_of, recipes_of};

const PLAN: &str = "nucleus --root /gg plan";

const WHY: &str = "nucleus --root /gg why";

/// Records by names for the table below, each as the bytes that a journal holds of it: a start; a deployment `r5` of
/// nothing to the group `g`, with revision 5; one to the group `ga`, which wants `X` from 1.0.0 on and before 2.0.0 and
/// has it in 1.2.9; one to the group `gc`, which has `C` in 1.0.0 with a configuration; one `d5` to the group `g` whose
/// bootstrap of `A` failed; how a deployment goes on and ends; and one of a kind that no program has yet.
const RECORDS: &[(&str, &[u8])] = &[
    (
        "genesis",
        b"\x11\0\0\0\x03/gg\0\0\0\x02t1\0\0\0\x062.12.0\0\0\0\x05linux\0\0\0\x05amd64",
    ),
    (
        "r5",
        b"\x1d\0\0\0\x02r5\0\0\0\x01g\0\0\0\0\0\0\0\x05\0\0\0\0\0\0\0\0\0\0\0\0\0",
    ),
    (
        "ga",
        b"\x12\0\0\0\x02d0\0\0\0\x02ga\0\0\0\0\x01\0\0\0\x01X\0\0\0\x0e>=1.0.0 <2.0.0\0\0\0\x01\0\0\0\x01X\0\0\0\x051.2.9\0\0\0S{\"RecipeFormatVersion\":\"20\
        20-01-25\",\"ComponentName\":\"X\",\"ComponentVersion\":\"1.2.9\"}\0\0\0\x02{}\0\0\0\0\0\0\0\0",
    ),
    (
        "d5",
        b"\x12\0\0\0\x02d5\0\0\0\x01g\0\0\0\0\x01\0\0\0\x01A\0\0\0\x02^1\0\0\0\x01\0\0\0\x01A\0\0\0\x051.2.0\0\0\0\x81{\"RecipeFormatVersion\":\"2020-01-25\"\
        ,\"ComponentName\":\"A\",\"ComponentVersion\":\"1.2.0\",\"Manifests\":[{\"Lifecycle\":{\"bootstrap\":\"b\"}}]}\0\0\0\x02{}\0\0\0\0\0\0\0\x01\0\0\0\
        \x01A",
    ),
    (
        "gc",
        b"\x12\0\0\0\x02d0\0\0\0\x02gc\0\0\0\0\x01\0\0\0\x01C\0\0\0\x0e>=1.0.0 <2.0.0\0\0\0\x01\0\0\0\x01C\0\0\0\x051.0.0\0\0\0S{\"RecipeFormatVersion\":\"20\
        20-01-25\",\"ComponentName\":\"C\",\"ComponentVersion\":\"1.0.0\"}\0\0\0#{\"Message\":\"world\",\"a/b\":{\"~\":[1]}}\0\0\0\0\0\0\0\0",
    ),
    ("begin", b"\x13\0\0\0\x01A"),
    ("fail", b"\x14\0\0\0\x01A\x01"),
    ("break", b"\x17\0\0\0\x01A"),
    ("activate", b"\x15"),
    ("newer", b"\x7f\0"),
    ("close", b"\x18\x01"),
    ("back", b"\x18\x02"),
];

/// Each line has the records of a journal, the recipes of a library, a document, the status of its plan, and what is
/// printed, where `;` stands for the end of a line. A recipe is written out, or it is the component's name, its version,
/// and a dependency with its range where it has one, or a length to which it is filled with blanks.
const ROWS: &str = concat!(
    r#"genesis|{"RecipeFormatVersion":"2020-01-25","ComponentName":"com.example.HelloWorld","ComponentVersion":"1.0.0","#,
    r#""ComponentDescription":"My first component","ComponentPublisher":"Example","ComponentConfiguration":{"DefaultConfiguration":{"Message":"world"}},"#,
    r#""Manifests":[{"Platform":{"os":"linux"},"Lifecycle":{"run":"python3 -u {artifacts:path}/hello_world.py \"{configuration:/Message}\""},"#,
    r#""Artifacts":[{"URI":"s3://bucket/artifacts/hello_world.py"}]}]}|{"deploymentId":"d1","targetArn":"arn:aws:iot:us-east-1:123456789012:thinggroup/g1","#,
    r#""deploymentName":"hello","components":{"com.example.HelloWorld":{"componentVersion":"1.0.0"}}}|0|plan com.example.HelloWorld 1.0.0;
genesis ga activate close|X 1.1.0;X 1.2.9;X 2.0.0|{"deploymentId":"d1","targetArn":"gb","components":{"X":{"componentVersion":"~1.2"}}}|0|plan X 1.2.9;
genesis|A 2.0.0 C ^2;A 1.0.0 C ^1;B 1.0.0 C ^1;C 1.0.0;C 2.0.0|{"deploymentId":"d1","targetArn":"g","#,
    r#""components":{"A":{"componentVersion":"*"},"B":{"componentVersion":"*"}}}|0|plan A 1.0.0;plan B 1.0.0;plan C 1.0.0;
genesis|A 2.0.0 C ^2;B 1.0.0 C ^1;C 1.0.0;C 2.0.0|"#,
    r#"{"deploymentId":"d1","targetArn":"g","components":{"A":{"componentVersion":"*"},"B":{"componentVersion":"*"}}}|3|refused 3 NoVersion;
genesis r5 activate close|X 1.0.0|{"deploymentId":"r4","targetArn":"g","revision":4,"components":{}}|18|refused 18 Stale r4 5;
genesis r5 activate close|X 1.0.0|{"deploymentId":"r0","targetArn":"g","components":{}}|0|
genesis r5 activate close|X 1.0.0|{"deploymentId":"r5","targetArn":"g","revision":4,"components":{}}|0|closed r5 SUCCESSFUL;
genesis d5 begin fail break back|X 1.0.0|{"deploymentId":"d5","targetArn":"g","components":{}}|10|closed d5 FAILED_ROLLBACK_COMPLETE;
genesis d5 begin|X 1.0.0|{"deploymentId":"d1","targetArn":"g","components":{}}|4|refused 4 pending d5;
genesis d5|X 1.0.0|no document|4|refused 4 pending d5;
genesis|X 1.0.0|{"deploymentId":"d1","targetArn":"g","revision":0,"components":{}}|2|refused 2 document BadRevision;
genesis|X 1.0.0|{"deploymentId":"d1","components":{}}|2|refused 2 document Missing targetArn;
genesis|X 1.0.0||2|refused 2 document NotJson;
genesis|{"RecipeFormatVersion":"2020-01-25","ComponentName":"A","ComponentVersion":"1.0.0","Manifests":[{"Artifacts":[{"URI":"s3://b/f","#,
    r#""Unarchive":"ZIP"}]}]}|{"deploymentId":"d1","targetArn":"g","components":{}}|2|refused 2 recipe 0 ZipArtifact;
genesis|{"RecipeFormatVersion":"2020-01-25","ComponentName":"A","ComponentVersion":"1.0.0","Manifests":[{"Artifacts":[{"URI":"s3://b/f","#,
    r#""Unarchive":"NONE"}]}]}|{"deploymentId":"d1","targetArn":"g","components":{"A":{"componentVersion":"*"}}}|0|plan A 1.0.0;
genesis|{"RecipeFormatVersion":"2020-01-25","ComponentName":"A","ComponentVersion":"1.0.0","Manifests":[{"Platform":{"os":"linux"}},"#,
    r#"{"Platform":{"os":"windows"},"Artifacts":[{"URI":"s3://b/f","Unarchive":"ZIP"}]}]}|"#,
    r#"{"deploymentId":"d1","targetArn":"g","components":{"A":{"componentVersion":"*"}}}|0|plan A 1.0.0;
genesis|A 1.0.0 65536|{"deploymentId":"d1","targetArn":"g","components":{"A":{"componentVersion":"*"}}}|0|plan A 1.0.0;
genesis|A 1.0.0 65537|{"deploymentId":"d1","targetArn":"g","components":{"A":{"componentVersion":"*"}}}|2|refused 2 recipe 0 TooLarge;
genesis ga activate close|X 1.2.9 Y *|{"deploymentId":"d1","targetArn":"g","components":{}}|2|refused 2 RecipeDiffers X 1.2.9;
genesis|{"RecipeFormatVersion":"2020-01-25","ComponentName":"A","ComponentVersion":"1.0.0","ComponentDependencies":{"B":{"VersionRequirement":"*"}},"#,
    r#""Manifests":[{"Lifecycle":{"bootstrap":"s"}}]};{"RecipeFormatVersion":"2020-01-25","ComponentName":"B","ComponentVersion":"1.0.0","#,
    r#""Manifests":[{"Lifecycle":{"bootstrap":"s"}}]}|"#,
    r#"{"deploymentId":"d1","targetArn":"g","components":{"A":{"componentVersion":"*"}}}|0|plan A 1.0.0;plan B 1.0.0;boot B;boot A;"#
);

/// What a call goes to, and which of the calls to it fail.
#[derive(Clone, Copy, Drop)]
struct Given<'a> {
    text: &'a str,
    failing: &'a [u64],
}

/// A library of the recipes of the text, which fails these calls.
pub(crate) fn library_of(
    alloc: Global,
    recipes: &str,
    failing: &[u64],
) -> Result<MemoryLibrary, Fail> {
    let failing = List::new(Vec::from_slice(alloc, failing)?);
    let recipes = recipes_of(alloc, recipes)?;
    Ok(MemoryLibrary::new(recipes, List::empty(alloc), failing))
}

/// A source of the document that is the text, which fails these calls.
pub(crate) fn source_of(
    alloc: Global,
    document: &str,
    failing: &[u64],
) -> Result<MemorySource, Fail> {
    let bytes = Bytes::from_slice(alloc, document.as_bytes())?;
    let failing = List::new(Vec::from_slice(alloc, failing)?);
    Ok(MemorySource::new(bytes, failing))
}

/// Writes a journal of these bytes.
fn hold(disk: &mut MemoryDisk, journal: &[u8]) -> Result<(), DiskFault> {
    disk.write_at("journal", 0, journal)?;
    disk.sync("journal")
}

/// A disk whose journal is these bytes.
pub(crate) fn holding(alloc: Global, journal: &[u8]) -> Result<MemoryDisk, Fail> {
    let mut disk = MemoryDisk::new(alloc);
    match hold(&mut disk, journal) {
        Ok(()) => Ok(disk),
        Err(fault) => {
            drop(disk);
            Err(fault.into())
        }
    }
}

/// Whether the words answer and print this, with `;` for each line feed, behind the status.
fn prints(
    alloc: Global,
    words: &str,
    disk: &mut MemoryDisk,
    library: &mut MemoryLibrary,
    source: &mut MemorySource,
    want: &str,
) -> Result<bool, Fail> {
    let text = calls::answer(alloc, words, disk, library, source)?;
    let is_wanted = text.as_str() == want;
    drop(text);
    Ok(is_wanted)
}

/// Whether the words over this journal answer and print this, and leave the journal.
pub(crate) fn leaves(
    alloc: Global,
    words: &str,
    journal: &[u8],
    library: &mut MemoryLibrary,
    source: &mut MemorySource,
    want: &str,
) -> Result<bool, Fail> {
    let mut disk = holding(alloc, journal)?;
    let is_wanted = prints(alloc, words, &mut disk, library, source, want);
    let is_kept = disk.file("journal") == journal;
    drop(disk);
    Ok(is_wanted? && is_kept)
}

/// The same of the journal of these records.
fn answers_over(
    alloc: Global,
    words: &str,
    history: &str,
    library: &mut MemoryLibrary,
    source: &mut MemorySource,
    want: &str,
) -> Result<bool, Fail> {
    let journal = journal_of(alloc, RECORDS, history)?;
    let is_right = leaves(alloc, words, &journal, library, source, want);
    drop(journal);
    is_right
}

/// The same with this source.
fn answers_from(
    alloc: Global,
    words: &str,
    history: &str,
    library: &mut MemoryLibrary,
    document: Given<'_>,
    want: &str,
) -> Result<bool, Fail> {
    let mut source = source_of(alloc, document.text, document.failing)?;
    let is_right = answers_over(alloc, words, history, library, &mut source, want);
    drop(source);
    is_right
}

/// The same over this library.
fn answers(
    alloc: Global,
    words: &str,
    history: &str,
    recipes: Given<'_>,
    document: Given<'_>,
    want: &str,
) -> Result<bool, Fail> {
    let mut library = library_of(alloc, recipes.text, recipes.failing)?;
    let is_right = answers_from(alloc, words, history, &mut library, document, want);
    drop(library);
    is_right
}

fn given_of(text: &str) -> Given<'_> {
    Given { text, failing: &[] }
}

/// Whether the words over the journal, the recipes and the document of this row answer and print what stands there, and leave
/// the journal.
pub(crate) fn is_row(alloc: Global, words: &str, row: &str) -> Result<bool, Fail> {
    let mut fields = row.splitn(4, '|');
    let history = fields.next().unwrap_or("");
    let recipes = given_of(fields.next().unwrap_or(""));
    let document = given_of(fields.next().unwrap_or(""));
    let want = fields.next().unwrap_or("?");
    answers(alloc, words, history, recipes, document, want)
}

/// The first line of which something else comes, or none.
fn first_wrong(alloc: Global) -> Result<&'static str, Fail> {
    for row in ROWS.lines() {
        if !is_row(alloc, PLAN, row)? {
            return Ok(row);
        }
    }
    Ok("")
}

#[test]
fn plans_are_printed_or_refused(rt: HostRuntime) -> Result<(), Fail> {
    assert_eq!(rt; first_wrong(rt.alloc())?, "");
    Ok(())
}

const DOCUMENT: &str = r#"{"deploymentId":"d1","targetArn":"g","components":{}}"#;

/// Whether the words over a new store print this where this call of the library fails.
fn answers_without_library(
    alloc: Global,
    words: &str,
    failing: u64,
    want: &str,
) -> Result<bool, Fail> {
    let recipes = Given {
        text: "A 1.0.0",
        failing: &[failing],
    };
    answers(alloc, words, "genesis", recipes, given_of(DOCUMENT), want)
}

#[test]
fn a_failing_library_is_status_7(rt: HostRuntime) -> Result<(), Fail> {
    let alloc = rt.alloc();
    for words in [PLAN, WHY] {
        for failing in 0..2u64 {
            assert!(rt;
                answers_without_library(alloc, words, failing, "7|refused 7 library;")?,
                "{words}: call {failing}"
            );
        }
    }
    Ok(())
}

/// Whether the words over a new store print this where this call of the source fails.
fn answers_without_source(
    alloc: Global,
    words: &str,
    failing: u64,
    want: &str,
) -> Result<bool, Fail> {
    let document = Given {
        text: DOCUMENT,
        failing: &[failing],
    };
    answers(alloc, words, "genesis", given_of("A 1.0.0"), document, want)
}

#[test]
fn a_failing_source_is_status_6(rt: HostRuntime) -> Result<(), Fail> {
    let alloc = rt.alloc();
    // The document is read, then its end, and no more.
    for (words, failing, want) in [
        (PLAN, 0, "6|fault 6 source;"),
        (PLAN, 1, "6|fault 6 source;"),
        (PLAN, 2, "0|"),
        (WHY, 0, "6|fault 6 source;"),
        (WHY, 1, "6|fault 6 source;"),
        (WHY, 2, "0|possible;"),
    ] {
        assert!(rt;
            answers_without_source(alloc, words, failing, want)?,
            "{words}: call {failing}"
        );
    }
    Ok(())
}
