//! The needs among a plan's items, by their places.
ghost use Rattle.std.specs.Prelude.{◌≡◌, ◌↔◌, ℕ, ◌≤◌, List, length, IsTrue, IfOk, MatchBool, MatchOption};
ghost use Rattle.std.specs.List.{AllByRecursion};
ghost use Rattle.dep_order.specs.Orders.{AreNodes, IsAcyclic};
ghost use Rattle.device.specs.Plans.{AreRising};
ghost use Rattle.device.specs.PlanNeeds.{names_of, StandsAt, IsMetAt, IsMetIn, AreMet, AddsNeeds, AreNeeds};

use dep_order::{Edges, Need, OrderFault, order};
use nuc_base::{List, Name, NoMemory};
use recipe_reader::{Dependency, Recipe};
use records::Item;
use std::alloc::Global;

/// The place of the item of that name.
pub(crate) fn place_of(items: &[Item], name: &Name) -> Option<usize>
    requires { AreRising (names_of items.now) }
    ensures { MatchOption result ((at : ℕ) → StandsAt items.now name.now at → ⊥) (StandsAt items.now name.now) }
{
    items.binary_search_by(|item| item.name.cmp(name)).ok()
}

/// The place of the item that meets the dependency.
fn met_at(items: &[Item], dependency: &Dependency) -> Option<usize>
    requires { AreRising (names_of items.now) }
    ensures { MatchOption result (IsMetIn items.now dependency.now → ⊥) (IsMetAt items.now dependency.now) }
{
    let Some(at) = place_of(items, &dependency.name) else {
        return None;
    };
    if dependency.range.holds(&items[at].version) {
        Some(at)
    } else {
        None
    }
}

/// Adds what the recipe of the item at the place needs. It is false where that is not all met.
fn add_needs(
    items: &[Item],
    from: u32,
    recipe: &Recipe,
    needs: &mut Vec<Need>,
) -> Result<bool, NoMemory>
    requires rise { AreRising (names_of items.now) }
    requires few { length items.now ≤ 128 }
    ensures { IfOk result (λ b. MatchBool b
        (AddsNeeds items.now from recipe.now.dependencies needs.old.items needs.new.items)
        (AreMet items.now recipe.now → ⊥)) }
{
    for dependency in recipe.dependencies.as_slice() {
        let Some(to) = met_at(items, dependency) else {
            return Ok(false);
        };
        needs.push(Need {
            from,
            to: to as u32,
            hard: dependency.hard,
        })?;
    }
    Ok(true)
}

/// What the recipes of the items need, where all of it is met.
pub(crate) fn needs_of(
    alloc: Global,
    items: &[Item],
    recipes: &[Recipe],
) -> Result<Option<Vec<Need>>, NoMemory>
    requires rise { AreRising (names_of items.now) }
    requires few { length items.now ≤ 128 }
    requires count { length recipes.now ≤ 128 }
    ensures { IfOk result (λ o. MatchOption o
        (AllByRecursion (AreMet items.now) recipes.now → ⊥)
        (λ needs. AreNeeds items.now 0 recipes.now needs.items)) }
{
    let mut needs = Vec::new(alloc);
    for (from, recipe) in recipes.iter().enumerate() {
        let are_met = add_needs(items, from as u32, recipe, &mut needs)?;
        if !are_met {
            return Ok(None);
        }
    }
    Ok(Some(needs))
}

/// Whether no place needs itself, by one or more needs.
pub(crate) fn is_acyclic(alloc: Global, edges: &Edges) -> Result<bool, NoMemory>
    requires { AreNodes edges.now }
    ensures { IfOk result (λ b. IsTrue b ↔ IsAcyclic edges.now) }
{
    match order(alloc, edges) {
        Ok(_) => Ok(true),
        Err(OrderFault::Cycle(_)) => Ok(false),
        Err(OrderFault::NoMemory) => Err(NoMemory),
    }
}
