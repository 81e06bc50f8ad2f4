//! What the group of local deployments asks, before a request and after it.
ghost use Rattle.std.specs.Prelude.{◌≡◌, ◌⊎◌, ◌≤◌, ◌+◌, ℕ, List, None, length, option_map, IfOk, if◌then◌else◌};
ghost use Rattle.std.specs.Cmp.Lexicographic.{slice_cmp};
ghost use Rattle.std.specs.List.{list_any};
ghost use Rattle.std.specs.List.Sorted.{IsStrictlySortedBy};
ghost use Rattle.std.specs.Map.{keys_of};
ghost use Rattle.std.specs.Option.{is_some};
ghost use Rattle.std.specs.Ordering.{nat_cmp};
ghost use Rattle.std.specs.Str.{bytes_eq};
ghost use Rattle.std.specs.declared.cmp.Ordering.TheVariants.{Less};
ghost use Rattle.local_deploy.specs.Documents.{IsLeastOf, IsNotAsked};
ghost use Rattle.local_deploy.specs.Lists.{asked_in, range_at, local_requirements, local_arn, IsLocalList};

use crate::remove::has_name;
use device::Groups;
use npm_ranges::Range;
use nuc_base::{Copied, Label, List, Name, NoMemory};
use records::Requirement;
use std::alloc::Global;
use std::collections::BTreeMap;

/// What the group of this arn asks: nothing where it is not there.
pub(crate) fn asked_of<'a>(groups: &'a Groups, arn: &Label) -> &'a [Requirement]
    requires { arn.now ≡ local_arn }
    ensures { result.now ≡ local_requirements groups.now.list }
{
    match groups.get(arn) {
        Some(group) => group.requirements.as_slice(),
        None => &[],
    }
}

fn asks(asked: &[Requirement], name: &Name) -> bool
    ensures { result ≡ is_some (range_at name.now (asked_in asked.now)) }
{
    for requirement in asked {
        if *name == requirement.name {
            return true;
        }
    }
    false
}

/// The lesser of two names.
fn lesser<'a>(name: &'a Name, other: &'a Name) -> &'a Name
    ensures one { (result.now ≡ name.now) ⊎ (result.now ≡ other.now) }
    ensures name { slice_cmp nat_cmp name.now result.now ≡ Less → ⊥ }
    ensures other { slice_cmp nat_cmp other.now result.now ≡ Less → ⊥ }
{
    if *other < *name { other } else { name }
}

/// The least removed name that is not asked.
pub(crate) fn not_asked<'a>(asked: &[Requirement], remove: &'a [Name]) -> Option<&'a Name>
    ensures { IsLeastOf (IsNotAsked (asked_in asked.now) remove.now) (option_map (λ n. n.now) result) }
{
    let mut least = None;
    for name in remove {
        if !asks(asked, name) {
            least = match least {
                Some(other) => Some(lesser(name, other)),
                None => Some(name),
            };
        }
    }
    least
}

/// What is asked and not removed.
fn kept(
    alloc: Global,
    asked: &[Requirement],
    remove: &[Name],
) -> Result<BTreeMap<Name, Range>, NoMemory>
    requires { IsStrictlySortedBy (slice_cmp nat_cmp) (keys_of (asked_in asked.now)) }
    ensures ranges { IfOk result (λ kept. (q : List ℕ) → range_at q kept.entries
        ≡ (if list_any (bytes_eq q) remove.now then None else range_at q (asked_in asked.now))) }
    ensures few { IfOk result (λ kept. length kept.entries ≤ length asked.now) }
    ensures rises { IfOk result (λ kept. IsStrictlySortedBy (slice_cmp nat_cmp) (keys_of kept.entries)) }
{
    let mut kept = BTreeMap::new(alloc);
    for requirement in asked {
        if !has_name(remove, &requirement.name) {
            drop(kept.insert(
                requirement.name.copy(alloc)?,
                requirement.range.copy(alloc)?,
            )?);
        }
    }
    Ok(kept)
}

/// What is asked after a request: what is asked and not removed, with each merged name put to its range.
pub(crate) fn local_list(
    alloc: Global,
    asked: &[Requirement],
    remove: &[Name],
    merge: List<(Name, Range)>,
) -> Result<BTreeMap<Name, Range>, NoMemory>
    requires asked { IsStrictlySortedBy (slice_cmp nat_cmp) (keys_of (asked_in asked.now)) }
    requires merge { IsStrictlySortedBy (slice_cmp nat_cmp) (keys_of merge) }
    ensures list { IfOk result (λ list. IsLocalList (asked_in asked.now) merge remove.now list.entries) }
    ensures few { IfOk result (λ list. length list.entries ≤ length asked.now + length merge) }
{
    let mut list = kept(alloc, asked, remove)?;
    for (name, range) in merge.into_vec() {
        drop(list.insert(name, range)?);
    }
    Ok(list)
}
