// Workloads that are drawn from a seed, by the top call. The counts were worked out outside of the program by
// `examples/workload/outcomes.py`, which draws the recipes and documents and follows each deployment in its own words.
use crate::calls;
use disk_model::MemoryDisk;
use edges::MemorySource;
use library_core::MemoryLibrary;
use nuc_base::{Bytes, List};
use std::alloc::Global;
use std::test::Fail;

const ROWS: &str = "0|0|workload 0: 32 deployments, 31 successful, 1 rolled back, 0 broken;
1|0|workload 1: 32 deployments, 32 successful, 0 rolled back, 0 broken;
12|0|workload 12: 32 deployments, 28 successful, 4 rolled back, 0 broken;
53|0|workload 53: 32 deployments, 31 successful, 0 rolled back, 1 broken;
18446744073709551615|0|workload 18446744073709551615: 32 deployments, 32 successful, 0 rolled back, 0 broken;";

/// What the workload of the seed prints, behind the status. The library and the source are not touched: they would fail at
/// the first call.
fn drawn(alloc: Global, words: &str) -> Result<String, Fail> {
    let mut disk = MemoryDisk::new(alloc);
    let failing = List::new(Vec::from_slice(alloc, &[0])?);
    let mut library = MemoryLibrary::new(List::empty(alloc), List::empty(alloc), failing);
    let failing = List::new(Vec::from_slice(alloc, &[0])?);
    let mut source = MemorySource::new(Bytes::empty(alloc), failing);
    let text = calls::answer(alloc, words, &mut disk, &mut library, &mut source);
    drop(source);
    drop(library);
    drop(disk);
    text
}

/// The number at this place among the words.
fn number_at(text: &str, place: usize) -> u32 {
    match text.split(' ').nth(place) {
        Some(word) => word.parse::<u32>().unwrap_or(0),
        None => 0,
    }
}

/// How many deployments the line counts, of which the first word has the status too.
fn counted(text: &str) -> u32 {
    let successful = number_at(text, 4);
    let rolled_back = number_at(text, 6);
    let broken = number_at(text, 9);
    successful
        .saturating_add(rolled_back)
        .saturating_add(broken)
}

/// Whether the line is the wanted one, and its counts add up to all deployments.
fn is_drawn(alloc: Global, row: &str) -> Result<bool, Fail> {
    let Some((seed, want)) = row.split_once('|') else {
        return Ok(false);
    };
    let words = format!(in alloc; "nucleus --root /gg workload --seed {seed}")?;
    let text = drawn(alloc, words.as_str());
    drop(words);
    let text = text?;
    let is_wanted = text.as_str() == want && counted(text.as_str()) == 32;
    drop(text);
    Ok(is_wanted)
}

/// The first line of which something else comes, or none.
fn first_wrong(alloc: Global) -> Result<&'static str, Fail> {
    for row in ROWS.lines() {
        if !is_drawn(alloc, row)? {
            return Ok(row);
        }
    }
    Ok("")
}

#[test]
fn a_seed_gives_one_line(rt: HostRuntime) -> Result<(), Fail> {
    assert_eq!(rt; first_wrong(rt.alloc())?, "");
    Ok(())
}
