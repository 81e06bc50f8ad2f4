use crate::slow::{bit, byte, pieces, preferred};
use resolver::{ResolveFault, resolve};
use std::alloc::{AllocError, Global};
use std::test::Fail;
use test_support::{library_of, wanted_of};

/// Small libraries, as `slow` reads them: the candidates, what is wanted, and the places of the preferred set. The sets come from a
/// program of its own, in another language, that goes by the definitions and tries all sets.
const LIBRARIES: &str = "A2 C12;B2;C1 A33 B13|A12 C13|none
A1 B11 C11;B1 A12;B2 A12;B3;C2;C3 B11|C12 C23|4
A1 B33 C22;A2 B33;A3 C12;B1;B2;B3;C1;C2 B33;C3 B33|A13 C13 C12|2 5 7
A2 B33 C33;B1 C33;B2 C11 D11;C1 B12 D22;D1 B12 C11|D13|none
A2 C13;B2 A22;C1|C13 A12|0 2
A1;A2 B33;A3;B2 A11;B3 A22|B13 A12|0 3
A1 C23;A3 C22;B1;B2 C11;C1 A13;C2 B12;C3;D1 A33 B11;D3 C23|A13 C13|1 2 5
A1;A2 B23;B2;B3 A11|A13 A12|1 2
A1 C13;A2 C23;A3;B1 A22;C2 B23 D33;C3;D1;D2 B11;D3 C12|A13 C12 A12|none
A1;A3;B1 C12;B2 C12;B3 A33 C13 D22;C3 A13 B22;D3 B22|B13 C13|none
A1;A2;A3;B1;B2 A12|B13 A23|2 3
A1 C22;A2 B11 C11;A3;B1;B2 C22;B3 A23 C13;C1 B11;C3 A13|C23 B12 C12|none
A1 B22;A3;B1;B2 A22;B3|A13 B12|1 2
A1;A2;B2;B3|A13 B23|1 3
A1;B1 A23;B2|A13 B13 B23|0 2
A2;A3;B1|A12 B13|0 2
A1 B13;A2 B13;B2|A23 B12 A23|1 2
A1;A2 B23;A3;B1 A13 C22;B2 C33;B3;C1 A33;C2;C3|C13 C23|8
A1;A2 B33;A3;B1 A11;B3 A23|A13 B13|2 4
A3 B33 C12 D33;B1 A13 D33;B3 A12;C1 D13;C2 A12 B22 D23;D1 A33 B11 C33;D2;D3 B13|C23|none
A3 B23;B2 A33;B3|B13|2
A1;A3 B11;B2|A13 B13|0 2
A1 C23;A3 C22;B1 C22;B2 C23 D33;B3 C11;C1;D2 C11;D3 A13 B22 C12|A13|none
A1 B12;A3 B13;B1;B2;B3 A13|A23 A12|none
A1;A2 B13 C22;A3;B1 C33;B2 A23;B3 A33 C22;C1 A23;C2 A13;C3 B11|C23|2 7
A1;A2;A3 B13;B1 A33 C11;B2;B3 A22;C1 B33;C2 A12|A12 B23|1 5
A1;A2;A3;B1 A13;B2 A23;B3 A22|A13 B23 A12|1 5
A2;B1;B3|A12 B12|0 1
A1;A2 B33;A3;B1 A22;B2 A12;B3|A12 B13|1 5
A1 B33;A2 B11 C33;A3;B1;B2;B3;C1 A11 B23;C2 B23;C3 A33 B11|C13 B23 C23|5 7
A1 D23;A2 D33;A3 D33;B1;B2 C23 D13;C1 A12 B23;C2 D12;D1;D3|B12 C13|4 6 7
A1 B33;A2 B13;A3 B33;B1 A22;B2;B3|B13 B12|4";

/// Rows of the same form. The newest `A` and `B` ask for different versions of `C`; without the older `A` nothing is left. A
/// component that two groups want is in the range of both. A cycle is in no set, and a soft dependency closes it as a hard
/// one does; nothing is chosen where nothing is wanted; and the built-in component is a candidate.
const OTHERS: &str = "A1 C:^1;A2 C:^2;B1 C:^1;C1;C2|A:* B:*|0 2 3
A2 C:^2;B1 C:^1;C1;C2|A:* B:*|none
X=1.1.0;X=1.2.9;X=2.0.0|X:>=1.0.0_<2.0.0 X:~1.2|1
A1 B~;B1 A:|A:*|none
A1 B~;B1 A:||
A1 B~;B1 A:|aws.greengrass.Nucleus:^2|2";

/// A bit for each place.
fn bits_of(places: &[u32]) -> u32 {
    let mut bits = 0;
    for place in places {
        bits |= bit(*place);
    }
    bits
}

/// The set of those places, or none.
fn set_of(places: &str) -> Option<u32> {
    if places == "none" {
        return None;
    }
    let mut set = 0;
    for place in places.split(' ') {
        if !place.is_empty() {
            set |= bit(byte(place, 0).saturating_sub(b'0') as u32);
        }
    }
    Some(set)
}

/// The set that is chosen of rows, or none.
fn chosen(alloc: Global, rows: &str, words: &str) -> Result<Option<u32>, Fail> {
    let candidates = library_of(alloc, rows)?;
    let wanted = wanted_of(alloc, words)?;
    match resolve(alloc, &candidates, &wanted) {
        Ok(set) => Ok(Some(bits_of(set.as_slice()))),
        Err(ResolveFault::NoVersion) => Ok(None),
        Err(ResolveFault::NoMemory) => Err(Fail::from("memory")),
    }
}

/// The set that the definitions give, or none.
fn best(alloc: Global, rows: &str, words: &str) -> Result<Option<u32>, AllocError> {
    let rows = pieces(alloc, rows, ';')?;
    let words = pieces(alloc, words, ' ')?;
    preferred(alloc, &rows, &words)
}

/// The library of a line, what is wanted of it, and the set.
fn parts_of(line: &str) -> (&str, &str, Option<u32>) {
    let (library, rest) = line.split_once('|').unwrap_or((line, ""));
    let (wanted, places) = rest.split_once('|').unwrap_or((rest, ""));
    (library, wanted, set_of(places))
}

fn is_chosen(alloc: Global, line: &str) -> Result<bool, Fail> {
    let (library, wanted, set) = parts_of(line);
    Ok(chosen(alloc, library, wanted)? == set)
}

fn is_preferred(alloc: Global, line: &str) -> Result<bool, AllocError> {
    let (library, wanted, set) = parts_of(line);
    Ok(best(alloc, library, wanted)? == set)
}

#[test]
fn chooses_what_the_definitions_prefer(rt: HostRuntime) -> Result<(), Fail> {
    let alloc = rt.alloc();
    for line in LIBRARIES.lines() {
        assert!(rt; is_preferred(alloc, line)?, "{line}");
        assert!(rt; is_chosen(alloc, line)?, "{line}");
    }
    Ok(())
}

#[test]
fn goes_back_and_refuses_cycles(rt: HostRuntime) -> Result<(), Fail> {
    let alloc = rt.alloc();
    for line in OTHERS.lines() {
        assert!(rt; is_chosen(alloc, line)?, "{line}");
    }
    Ok(())
}
