//! What follows from the definition of an order alone, whatever a run of `order` answers.

ghost use Rattle.std.specs.Prelude.{◌≡◌, List, ℕ, ◌↔◌};
ghost use Rattle.nuc_base.specs.Leads.{HasPath};
ghost use Rattle.dep_order.specs.Orders.{AreNodes, IsOrder, IsWholeOrder, IsAcyclic, IsCycle, HasNeed, NeedsComeFirst};

use crate::Edges;

/// An order of all places exists exactly where there is no cycle.
pub fn order_exists_without_cycle(edges: &Edges)
    requires { AreNodes edges.now }
    ensures { ((list : List ℕ) × IsWholeOrder edges.now list) ↔ IsAcyclic edges.now }
{}

/// In an order each need stands before what needs it.
pub fn needs_come_first(edges: &Edges)
    ensures { (list : List ℕ) → IsOrder edges.now list → NeedsComeFirst edges.now list }
{}

/// There is one order at most.
pub fn one_order(edges: &Edges)
    ensures { (some other : List ℕ) → IsOrder edges.now some → IsOrder edges.now other → some ≡ other }
{}

/// A cycle leads from a place to itself, so that where there is one the needs are not acyclic.
pub fn cycle_leads_to_itself(edges: &Edges)
    ensures { (list : List ℕ) → IsCycle edges.now list → (p : ℕ) × HasPath (HasNeed edges.now) p p }
{}
