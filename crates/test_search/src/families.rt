//! Larger libraries of several families: an answer in time, and a valid one. That a set is there follows from how they are drawn: one
//! version of each name, the chosen one, needs later names alone, in ranges that hold their chosen versions.

use crate::draw::Draw;
use crate::valid::is_valid;
use conflict_search::{SearchFault, search};
use std::alloc::{AllocError, Global};
use std::test::Fail;
use test_support::{library_of, wanted_of};

/// How the recipes of a library look.
#[derive(Clone, Copy, Drop)]
enum Shape {
    /// Needs with one of these operators.
    Drawn(&'static str, &'static str),
    /// The same, and each other version needs an earlier name too.
    Back,
    /// Each version needs the next names from its own version on.
    Next,
    /// Each version needs the same version of the next name.
    Chain,
    /// Each version needs the next name, and the last name the first.
    Ring,
    /// Each version needs one other name.
    OneEach,
    /// Nothing is needed.
    Free,
}

/// A library of so many names of so many versions, of which some need others, and what is wanted beside the first two names.
#[derive(Clone, Copy, Drop)]
struct Family {
    shape: Shape,
    names: u64,
    versions: u64,
    needs: u64,
    wanted: &'static str,
    end: &'static str,
}

/// `z`, where it is wanted, needs a version of `y` that there is not; `r` and `s` need different versions of one name.
const FAMILIES: &[Family] = &[
    Family {
        shape: Shape::Drawn("=", ">="),
        names: 20,
        versions: 5,
        needs: 3,
        wanted: "",
        end: "set",
    },
    Family {
        shape: Shape::Drawn("=", ">="),
        names: 25,
        versions: 12,
        needs: 4,
        wanted: "",
        end: "set",
    },
    Family {
        shape: Shape::Drawn("^", ">="),
        names: 40,
        versions: 6,
        needs: 4,
        wanted: "",
        end: "set",
    },
    Family {
        shape: Shape::Drawn("~", "^"),
        names: 25,
        versions: 12,
        needs: 3,
        wanted: "",
        end: "set",
    },
    Family {
        shape: Shape::Drawn("~", "^"),
        names: 30,
        versions: 10,
        needs: 2,
        wanted: "",
        end: "set",
    },
    Family {
        shape: Shape::Drawn("=", ">="),
        names: 30,
        versions: 10,
        needs: 3,
        wanted: " z:*",
        end: "none",
    },
    Family {
        shape: Shape::Drawn("^", ">="),
        names: 30,
        versions: 8,
        needs: 3,
        wanted: " r:* s:*",
        end: "none",
    },
    Family {
        shape: Shape::Back,
        names: 30,
        versions: 8,
        needs: 3,
        wanted: "",
        end: "set",
    },
    Family {
        shape: Shape::Next,
        names: 64,
        versions: 1,
        needs: 16,
        wanted: "",
        end: "set",
    },
    Family {
        shape: Shape::Next,
        names: 24,
        versions: 8,
        needs: 16,
        wanted: "",
        end: "set",
    },
    Family {
        shape: Shape::Chain,
        names: 32,
        versions: 8,
        needs: 1,
        wanted: "",
        end: "set",
    },
    Family {
        shape: Shape::Chain,
        names: 32,
        versions: 8,
        needs: 1,
        wanted: " n31:^9",
        end: "none",
    },
    Family {
        shape: Shape::Ring,
        names: 40,
        versions: 5,
        needs: 1,
        wanted: "",
        end: "none",
    },
    Family {
        shape: Shape::OneEach,
        names: 30,
        versions: 5,
        needs: 1,
        wanted: "",
        end: "none",
    },
    Family {
        shape: Shape::Free,
        names: 100,
        versions: 3,
        needs: 0,
        wanted: " z:*",
        end: "none",
    },
];

/// The version of that name that goes with the others.
fn chosen(name: u64, versions: u64) -> u64 {
    name.wrapping_mul(7).wrapping_add(3) % versions.max(1)
}

/// Versions count patches, then minors, then majors where the ranges tell them apart, and else majors alone.
fn push_version(text: &mut String, shape: Shape, number: u64) -> Result<(), AllocError> {
    match shape {
        Shape::Drawn("~", _) => {
            let major = (number / 6).saturating_add(1);
            let minor = number / 2 % 3;
            let patch = number % 2;
            write!(text, "{major}.{minor}.{patch}")
        }
        _ => {
            let major = number.saturating_add(1);
            write!(text, "{major}.0.0")
        }
    }
}

fn push_need(
    text: &mut String,
    family: &Family,
    to: u64,
    operator: &str,
    number: u64,
) -> Result<(), AllocError> {
    write!(text, " n{to:02}:{operator}")?;
    push_version(text, family.shape, number)
}

/// Needs of later names.
fn push_drawn(
    text: &mut String,
    family: &Family,
    draw: &mut Draw,
    name: u64,
    version: u64,
    either: (&str, &str),
) -> Result<(), AllocError> {
    let versions = family.versions;
    let mut to = name;
    for _need in 0..family.needs {
        to = to.saturating_add(1).saturating_add(draw.below(3));
        let operator = if draw.below(3) == 0 {
            either.0
        } else {
            either.1
        };
        let other = draw.below(versions);
        let number = if version == chosen(name, versions) {
            chosen(to, versions)
        } else {
            other
        };
        if to < family.names {
            push_need(text, family, to, operator, number)?;
        }
    }
    Ok(())
}

fn push_back(
    text: &mut String,
    family: &Family,
    draw: &mut Draw,
    name: u64,
    version: u64,
) -> Result<(), AllocError> {
    push_drawn(text, family, draw, name, version, ("^", ">="))?;
    let to = draw.below(name.max(1));
    if name > 0 && version != chosen(name, family.versions) {
        push_need(text, family, to, ">=", 0)?;
    }
    Ok(())
}

fn push_next(
    text: &mut String,
    family: &Family,
    name: u64,
    version: u64,
) -> Result<(), AllocError> {
    for to in name.saturating_add(1)..name
        .saturating_add(family.needs)
        .saturating_add(1)
        .min(family.names)
    {
        push_need(text, family, to, ">=", version)?;
    }
    Ok(())
}

fn push_needs(
    text: &mut String,
    family: &Family,
    draw: &mut Draw,
    name: u64,
    version: u64,
) -> Result<(), AllocError> {
    let next = name.saturating_add(1);
    match family.shape {
        Shape::Drawn(one, other) => push_drawn(text, family, draw, name, version, (one, other)),
        Shape::Back => push_back(text, family, draw, name, version),
        Shape::Next => push_next(text, family, name, version),
        Shape::Chain if next < family.names => push_need(text, family, next, "=", version),
        Shape::Ring => push_need(
            text,
            family,
            if next < family.names { next } else { 0 },
            ">=",
            0,
        ),
        Shape::OneEach => {
            let to = name
                .saturating_add(1)
                .saturating_add(draw.below(family.names.saturating_sub(1)))
                % family.names.max(1);
            push_need(text, family, to, ">=", 0)
        }
        _ => Ok(()),
    }
}

fn push_rows(
    text: &mut String,
    family: &Family,
    draw: &mut Draw,
    name: u64,
) -> Result<(), AllocError> {
    for version in 0..family.versions {
        write!(text, "n{name:02}=")?;
        push_version(text, family.shape, version)?;
        push_needs(text, family, draw, name, version)?;
        text.push(';')?;
    }
    Ok(())
}

fn rows_of(alloc: Global, family: &Family) -> Result<String, AllocError> {
    let mut text = String::new(alloc);
    let mut draw = Draw::new(family.names);
    for name in 0..family.names {
        push_rows(&mut text, family, &mut draw, name)?;
    }
    text.push_str("r=1.0.0 n05:=1.0.0;s=1.0.0 n05:=2.0.0;y=1.0.0;z=1.0.0 y:^2")?;
    Ok(text)
}

/// How the search ends: with a valid set, with a wrong one, with none, or for want of memory.
fn end_of(alloc: Global, rows: &str, words: &str) -> Result<&'static str, Fail> {
    let candidates = library_of(alloc, rows)?;
    let wanted = wanted_of(alloc, words)?;
    let mut tries = 0;
    match search(alloc, &candidates, &wanted, &mut tries) {
        Ok(set) => {
            let valid = is_valid(
                alloc,
                candidates.list().as_slice(),
                wanted.as_slice(),
                set.as_slice(),
            )?;
            Ok(if valid { "set" } else { "wrong" })
        }
        Err(SearchFault::NoVersion) => Ok("none"),
        Err(SearchFault::NoMemory) => Ok("memory"),
    }
}

fn is_as_drawn(alloc: Global, family: &Family) -> Result<bool, Fail> {
    let rows = rows_of(alloc, family)?;
    let words = format!(in alloc; "n00:* n01:*{}", family.wanted)?;
    let end = end_of(alloc, rows.as_str(), words.as_str())?;
    Ok(end == family.end)
}

/// The first family that does not end so, by its place in the table.
fn first_wrong(alloc: Global) -> Result<Option<usize>, Fail> {
    for (at, family) in FAMILIES.iter().enumerate() {
        if !is_as_drawn(alloc, family)? {
            return Ok(Some(at));
        }
    }
    Ok(None)
}

#[test]
fn ends_each_family_as_it_was_drawn(rt: HostRuntime) -> Result<(), Fail> {
    let wrong = first_wrong(rt.alloc())?;
    assert_eq!(rt; wrong, None);
    Ok(())
}

/// One bird more than there are holes: each version of a bird is one of the holes, and needs it in a version of the bird's own.
fn push_birds(text: &mut String, holes: u64, bird: u64) -> Result<(), AllocError> {
    let own = bird.saturating_add(1);
    for hole in 1..=holes {
        write!(text, "b{bird:02}={hole}.0.0 h{hole:02}:={own}.0.0;")?;
    }
    Ok(())
}

fn push_hole(text: &mut String, holes: u64, hole: u64) -> Result<(), AllocError> {
    for version in 1..=holes.saturating_add(1) {
        write!(text, "h{hole:02}={version}.0.0;")?;
    }
    Ok(())
}

fn pigeonhole(alloc: Global, holes: u64) -> Result<&'static str, Fail> {
    let mut rows = String::new(alloc);
    let mut words = String::new(alloc);
    for bird in 0..=holes {
        push_birds(&mut rows, holes, bird)?;
        write!(words, "b{bird:02}:* ")?;
    }
    for hole in 1..=holes {
        push_hole(&mut rows, holes, hole)?;
    }
    rows.push_str("z=1.0.0")?;
    end_of(alloc, rows.as_str(), words.as_str())
}

/// Which of this form has no set is the pigeonhole principle. There is no short reason for it, so of twelve the search gives up.
#[test]
fn gives_up_pigeonholes_of_twelve(rt: HostRuntime) -> Result<(), Fail> {
    let alloc = rt.alloc();
    let seven = pigeonhole(alloc, 7)?;
    let twelve = pigeonhole(alloc, 12)?;
    assert_eq!(rt; (seven, twelve), ("none", "memory"));
    Ok(())
}
