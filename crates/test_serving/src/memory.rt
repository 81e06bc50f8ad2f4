// A call that serves with two documents, in which an allocation may be refused, which leaves a store that goes on.
// `examples/want-of-memory/run` refuses each allocation between the two marks in turn; with ample memory the call ends well.
use crate::calls::call;
use crate::faults::{asked_of, begun};
use disk_model::{MemoryDisk, Pick};
use std::alloc::Global;
use std::test::Fail;
use test_calls::mark;

const DOCUMENTS: &str = r#"d2 ROLLBACK D 1.0.0{"k":2} H 1.0.0&d3 ROLLBACK D 1.0.0&closed"#;

const SERVE: &str = "serve --turns 4";

/// Which documents were acknowledged.
#[derive(Clone, Copy, Drop)]
struct Told {
    second: bool,
    third: bool,
}

/// Whether the call answers 0.
fn goes_well(
    alloc: Global,
    disk: &mut MemoryDisk,
    command: &str,
    documents: &str,
) -> Result<bool, Fail> {
    let said = call(alloc, disk, asked_of(command, documents, ""))?;
    let is_well = said.as_str().starts_with("0|");
    drop(said);
    Ok(is_well)
}

/// Whether these of the documents are closed.
fn has_closed(alloc: Global, disk: &mut MemoryDisk, told: Told) -> Result<bool, Fail> {
    let said = call(alloc, disk, asked_of("status", "", ""))?;
    let has_second = said.as_str().contains(";closed d2 ");
    let has_third = said.as_str().contains(";closed d3 ");
    drop(said);
    Ok((has_second || !told.second) && (has_third || !told.third))
}

/// Whether `resume` closes what was acknowledged, and the same documents are all closed behind one more call.
fn finishes(alloc: Global, disk: &mut MemoryDisk, told: Told) -> Result<bool, Fail> {
    let both = Told {
        second: true,
        third: true,
    };
    Ok(
        goes_well(alloc, disk, "resume", "")?
            && has_closed(alloc, disk, told)?
            && goes_well(alloc, disk, SERVE, DOCUMENTS)?
            && has_closed(alloc, disk, both)?,
    )
}

/// So it is over each image that a crash may leave.
fn goes_on(alloc: Global, disk: &MemoryDisk, told: Told) -> Result<bool, Fail> {
    for pick in [Pick::Old, Pick::New, Pick::Fill(0x01), Pick::Fill(0xff)] {
        let mut image = disk.image(alloc, pick)?;
        let is_right = finishes(alloc, &mut image, told);
        drop(image);
        if !is_right? {
            return Ok(false);
        }
    }
    Ok(true)
}

/// Whether the call answers 0, where a start that the runner refuses is a line; or that there is no memory, or what the disk, the
/// inbox or the sink answers that found none.
fn may_answer(said: &str) -> bool {
    said.starts_with("0|")
        || said.starts_with("15|")
        || said.starts_with("5|")
        || said.starts_with("6|")
}

/// Whether want of memory for a document costs no more than that: it is a line, the other document is deployed, and the call ends well.
fn is_one_document(said: &str) -> bool {
    !said.contains("fault 15 memory;")
        || said.starts_with("0|") && (said.contains("closed d2 ") || said.contains("closed d3 "))
}

/// Whether the call answers as it may, and what it leaves goes on.
fn bears(alloc: Global, disk: &mut MemoryDisk) -> Result<bool, Fail> {
    mark(alloc);
    let said = call(alloc, disk, asked_of(SERVE, DOCUMENTS, ""))?;
    mark(alloc);
    let may_answer = may_answer(said.as_str()) && is_one_document(said.as_str());
    let told = Told {
        second: said.as_str().contains("accepted d2;"),
        third: said.as_str().contains("accepted d3;"),
    };
    drop(said);
    Ok(may_answer && goes_on(alloc, disk, told)? && finishes(alloc, disk, told)?)
}

#[test]
fn two_documents_bear_want_of_memory(rt: HostRuntime) -> Result<(), Fail> {
    let mut disk = begun(rt.alloc())?;
    let is_borne = bears(rt.alloc(), &mut disk);
    drop(disk);
    assert!(rt; is_borne?);
    Ok(())
}
