ghost use Rattle.std.specs.Prelude.{IfOk};
ghost use Rattle.dep_order.specs.Orders.{AreNodes};

use dep_order::{Edges, Need, OrderFault, hard_dependents, order};
use nuc_base::{List, NoMemory};
use std::alloc::Global;
use std::test::Fail;

/// What is wanted of some edges: their order, or a cycle; and the hard dependents of a place.
struct Case {
    nodes: u32,
    needs: &'static [(u32, u32, bool)],
    order: &'static [u32],
    has_cycle: bool,
    of: u32,
    dependents: &'static [u32],
}

/// Where there is a cycle no order is wanted. The values come from a program of its own that goes by the definitions,
/// by trying all places.
const CASES: [Case; 29] = [
    Case {
        nodes: 0,
        needs: &[],
        order: &[],
        has_cycle: false,
        of: 0,
        dependents: &[],
    },
    Case {
        nodes: 1,
        needs: &[],
        order: &[0],
        has_cycle: false,
        of: 0,
        dependents: &[],
    },
    Case {
        nodes: 1,
        needs: &[(0, 0, true)],
        order: &[],
        has_cycle: true,
        of: 0,
        dependents: &[0],
    },
    Case {
        nodes: 1,
        needs: &[(0, 0, false)],
        order: &[],
        has_cycle: true,
        of: 0,
        dependents: &[],
    },
    Case {
        nodes: 2,
        needs: &[],
        order: &[0, 1],
        has_cycle: false,
        of: 1,
        dependents: &[],
    },
    Case {
        nodes: 2,
        needs: &[(0, 1, true)],
        order: &[1, 0],
        has_cycle: false,
        of: 1,
        dependents: &[0],
    },
    Case {
        nodes: 2,
        needs: &[(1, 0, true)],
        order: &[0, 1],
        has_cycle: false,
        of: 0,
        dependents: &[1],
    },
    Case {
        nodes: 2,
        needs: &[(0, 1, false), (1, 0, true)],
        order: &[],
        has_cycle: true,
        of: 1,
        dependents: &[],
    },
    Case {
        nodes: 2,
        needs: &[(0, 1, true), (1, 0, true)],
        order: &[],
        has_cycle: true,
        of: 0,
        dependents: &[0, 1],
    },
    Case {
        nodes: 2,
        needs: &[(0, 1, true), (0, 1, true)],
        order: &[1, 0],
        has_cycle: false,
        of: 1,
        dependents: &[0],
    },
    Case {
        nodes: 2,
        needs: &[(0, 1, false), (0, 1, true)],
        order: &[1, 0],
        has_cycle: false,
        of: 1,
        dependents: &[0],
    },
    Case {
        nodes: 3,
        needs: &[(0, 2, true), (1, 0, true)],
        order: &[2, 0, 1],
        has_cycle: false,
        of: 2,
        dependents: &[0, 1],
    },
    Case {
        nodes: 3,
        needs: &[(0, 2, false), (1, 0, true)],
        order: &[2, 0, 1],
        has_cycle: false,
        of: 2,
        dependents: &[],
    },
    Case {
        nodes: 3,
        needs: &[(0, 1, true), (1, 2, true), (2, 0, true)],
        order: &[],
        has_cycle: true,
        of: 1,
        dependents: &[0, 1, 2],
    },
    Case {
        nodes: 3,
        needs: &[(0, 1, true), (1, 2, false), (2, 0, true)],
        order: &[],
        has_cycle: true,
        of: 0,
        dependents: &[2],
    },
    Case {
        nodes: 3,
        needs: &[(2, 1, true), (1, 1, true)],
        order: &[],
        has_cycle: true,
        of: 1,
        dependents: &[1, 2],
    },
    Case {
        nodes: 4,
        needs: &[(0, 1, true), (0, 2, true), (1, 3, true), (2, 3, true)],
        order: &[3, 1, 2, 0],
        has_cycle: false,
        of: 3,
        dependents: &[0, 1, 2],
    },
    Case {
        nodes: 4,
        needs: &[(3, 1, true), (3, 2, false), (1, 0, true), (2, 0, true)],
        order: &[0, 1, 2, 3],
        has_cycle: false,
        of: 0,
        dependents: &[1, 2, 3],
    },
    Case {
        nodes: 4,
        needs: &[(0, 1, true), (1, 0, true), (2, 3, true), (3, 2, true)],
        order: &[],
        has_cycle: true,
        of: 2,
        dependents: &[2, 3],
    },
    Case {
        nodes: 4,
        needs: &[(0, 1, true), (1, 0, true), (2, 0, true), (3, 2, false)],
        order: &[],
        has_cycle: true,
        of: 0,
        dependents: &[0, 1, 2],
    },
    Case {
        nodes: 4,
        needs: &[(3, 2, true), (2, 1, true), (1, 0, true)],
        order: &[0, 1, 2, 3],
        has_cycle: false,
        of: 0,
        dependents: &[1, 2, 3],
    },
    Case {
        nodes: 4,
        needs: &[(0, 3, true), (1, 3, true), (2, 3, true)],
        order: &[3, 0, 1, 2],
        has_cycle: false,
        of: 3,
        dependents: &[0, 1, 2],
    },
    Case {
        nodes: 5,
        needs: &[
            (0, 1, true),
            (1, 2, true),
            (2, 3, true),
            (3, 1, true),
            (4, 0, true),
        ],
        order: &[],
        has_cycle: true,
        of: 3,
        dependents: &[0, 1, 2, 3, 4],
    },
    Case {
        nodes: 5,
        needs: &[(4, 3, true), (2, 3, false), (3, 1, true), (0, 4, true)],
        order: &[1, 3, 2, 4, 0],
        has_cycle: false,
        of: 1,
        dependents: &[0, 3, 4],
    },
    Case {
        nodes: 5,
        needs: &[
            (1, 4, true),
            (2, 0, true),
            (1, 4, false),
            (4, 2, true),
            (3, 3, false),
        ],
        order: &[],
        has_cycle: true,
        of: 0,
        dependents: &[1, 2, 4],
    },
    Case {
        nodes: 6,
        needs: &[
            (5, 0, true),
            (5, 2, true),
            (4, 0, true),
            (4, 1, true),
            (2, 3, true),
            (3, 1, true),
        ],
        order: &[0, 1, 3, 2, 4, 5],
        has_cycle: false,
        of: 1,
        dependents: &[2, 3, 4, 5],
    },
    Case {
        nodes: 6,
        needs: &[
            (0, 5, true),
            (1, 4, true),
            (2, 3, true),
            (5, 4, true),
            (4, 3, true),
        ],
        order: &[3, 2, 4, 1, 5, 0],
        has_cycle: false,
        of: 3,
        dependents: &[0, 1, 2, 4, 5],
    },
    Case {
        nodes: 6,
        needs: &[
            (0, 2, true),
            (2, 4, true),
            (4, 0, true),
            (1, 3, true),
            (3, 5, true),
            (5, 1, false),
        ],
        order: &[],
        has_cycle: true,
        of: 5,
        dependents: &[1, 3],
    },
    Case {
        nodes: 7,
        needs: &[
            (6, 5, true),
            (0, 6, false),
            (3, 0, true),
            (1, 3, true),
            (4, 1, true),
            (2, 4, true),
        ],
        order: &[5, 6, 0, 3, 1, 4, 2],
        has_cycle: false,
        of: 6,
        dependents: &[],
    },
];

/// Edges of that many places, without needs of others.
fn edges_of(alloc: Global, nodes: u32, needs: &[(u32, u32, bool)]) -> Result<Edges, NoMemory>
    ensures { IfOk result AreNodes }
{
    let mut list = List::empty(alloc);
    for (from, to, hard) in needs {
        if *from < nodes && *to < nodes {
            list.push(Need {
                from: *from,
                to: *to,
                hard: *hard,
            })?;
        }
    }
    Ok(Edges { nodes, needs: list })
}

/// Whether each of the list needs the next, and the last the first.
fn is_cycle(edges: &Edges, list: &[u32]) -> bool {
    let needs = edges.needs.as_slice();
    let Some(first) = list.first() else {
        return false;
    };
    list.iter().zip(list[1..].iter().chain([*first].iter())).all(|(a, b)| needs
        .iter()
        .any(|need| need.from == *a && need.to == *b))
}

/// 1,024 places, each of which needs 64 others, all later ones.
fn many_needs(alloc: Global) -> Result<Vec<(u32, u32, bool)>, NoMemory> {
    let mut needs = Vec::new(alloc);
    for count in 0..65536u32 {
        let one = count / 64;
        let other = (one + 1 + count % 64) % 1024;
        needs.push((one.min(other), one.max(other), true))?;
    }
    Ok(needs)
}

/// Whether the edges have the order that is wanted, or a cycle where that is.
fn is_ordered(alloc: Global, edges: &Edges, case: &Case) -> bool
    requires { AreNodes edges.now }
{
    let found = order(alloc, edges);
    let is_ordered = match &found {
        Ok(list) => !case.has_cycle && list.as_slice() == case.order,
        Err(OrderFault::Cycle(list)) => case.has_cycle && is_cycle(edges, list.as_slice()),
        Err(OrderFault::NoMemory) => false,
    };
    drop(found);
    is_ordered
}

/// Whether the case has the order that is wanted, or a cycle where that is.
fn is_case_ordered(alloc: Global, case: &Case) -> Result<bool, NoMemory> {
    let edges = edges_of(alloc, case.nodes, case.needs)?;
    let is_ordered = is_ordered(alloc, &edges, case);
    drop(edges);
    Ok(is_ordered)
}

/// Whether the hard dependents are those that are wanted.
fn has_dependents(alloc: Global, case: &Case) -> Result<bool, NoMemory> {
    let edges = edges_of(alloc, case.nodes, case.needs)?;
    let found = hard_dependents(alloc, &edges, case.of);
    drop(edges);
    Ok(found?.as_slice() == case.dependents)
}

#[test]
fn orders_cycles_and_dependents(rt: HostRuntime) -> Result<(), Fail> {
    let alloc = rt.alloc();
    for case in &CASES {
        assert!(rt; is_case_ordered(alloc, case)?, "order of {:?}", case.needs);
        assert!(rt;
            has_dependents(alloc, case)?,
            "dependents in {:?}",
            case.needs
        );
    }
    Ok(())
}

/// The first place that does not stand as far from the beginning as its number is from 1023, or none.
fn first_out_of_order(list: &[u32]) -> Option<usize> {
    for (index, place) in list.iter().enumerate() {
        if index + *place as usize != 1023 {
            return Some(index);
        }
    }
    None
}

/// The first number that does not stand at its own place, or none.
fn first_misplaced(list: &[u32]) -> Option<usize> {
    for (index, place) in list.iter().enumerate() {
        if index != *place as usize {
            return Some(index);
        }
    }
    None
}

/// How many places the order of many needs has, and the first that stands wrong there.
fn many_ordered(alloc: Global, edges: &Edges) -> Result<(usize, Option<usize>), Fail>
    requires { AreNodes edges.now }
{
    let Ok(list) = order(alloc, edges) else {
        return Err(Fail::from(NoMemory));
    };
    Ok((list.len(), first_out_of_order(list.as_slice())))
}

/// How many need the last place, and the first of them that stands wrong.
fn many_dependents(alloc: Global, edges: &Edges) -> Result<(usize, Option<usize>), Fail>
    requires { AreNodes edges.now }
{
    let found = hard_dependents(alloc, edges, 1023)?;
    Ok((found.len(), first_misplaced(found.as_slice())))
}

fn is_with_cycle(alloc: Global, edges: &Edges) -> bool
    requires { AreNodes edges.now }
{
    matches!(order(alloc, edges), Err(OrderFault::Cycle(_)))
}

#[test]
fn many_needs_are_ordered(rt: HostRuntime) -> Result<(), Fail> {
    let alloc = rt.alloc();
    let mut needs = many_needs(alloc)?;
    let edges = edges_of(alloc, 1024, &needs)?;
    assert_eq!(rt; many_ordered(alloc, &edges)?, (1024, None));
    assert_eq!(rt; many_dependents(alloc, &edges)?, (1023, None));
    drop(edges);
    needs.push((1023, 0, false))?;
    let edges = edges_of(alloc, 1024, &needs)?;
    assert!(rt; is_with_cycle(alloc, &edges));
    Ok(())
}
