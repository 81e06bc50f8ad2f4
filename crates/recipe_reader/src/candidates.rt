// The recipes that a deployment may choose from.
ghost use Rattle.std.specs.Prelude.{◌≡◌, ◌≢◌, ◌↔◌, IsTrue, ◌<◌, ◌≤◌, ◌+◌, ◌-◌, ◌^◌, ◌∷◌, [], length, map, IfOk, OnOk, IfErr, OnErr, MatchResult};
ghost use Rattle.std.specs.List.{AllWithin, HoldsAt, insert};
ghost use Rattle.recipe_reader.specs.Members.{member, members, IsBefore, IsRising};
ghost use Rattle.recipe_reader.specs.Candidates.{IsRead, AreCandidates, IsNucleus, IsAlike, HasClash, IsAdded, member_order};

use crate::candidate::Candidate;
use crate::nucleus::nucleus_of;
use npm_ranges::{Version, order_of_versions};
use nuc_base::{List, NoMemory};
use std::alloc::Global;
use std::cmp::Ordering;
use std::marker::Model;
use std::mem;

/// Why a candidate was not added. It comes back.
#[derive(Debug, Drop)]
pub enum AddRefusal {
    /// One of the same name and version stands there with other bytes.
    Clash(Candidate),
    NoMemory(Candidate),
}

/// Candidates in the order of their names, and those of one name in the order of their versions. Contracts see them
/// as that list.
#[derive(Debug, Drop)]
pub struct Candidates {
    alloc: Global,
    list: List<Candidate>,
}

impl Model for Candidates {
    ghost use Rattle.std.specs.Prelude.{List};
    ghost use Rattle.recipe_reader.specs.declared.candidate.Candidate.{Candidate};
    ghost use Rattle.recipe_reader.specs.Candidates.{AreCandidates};
    ghost use Rattle.tree_core.specs.contracts.tree.Tree as tree;
    ghost use Rattle.std.specs.Coded.{codes};

    ghost Value = { List Candidate };

    ghost coded = { Prim.hlevel (codes, tree.the_row.coded) };

    ghost view = { λ a. a.list };

    ghost invariant = { λ a. AreCandidates a.list };
}

/// By name, then by version.
fn compare(a: &Candidate, b: &Candidate) -> Ordering
    ensures { result ≡ member_order (member a.now) (member b.now) }
{
    a.recipe
        .name
        .cmp(&b.recipe.name)
        .then(a.recipe.version.compare(&b.recipe.version))
}

/// The place of the candidate's name and version among those in order, or the place where it belongs.
fn place_of(candidates: &[Candidate], candidate: &Candidate) -> Result<usize, usize>
    requires { IsRising (members candidates.now) }
    ensures within { MatchResult result (λ at. at < length candidates.now) (λ at. at ≤ length candidates.now) }
    ensures place { MatchResult result
        (λ at. HoldsAt (λ c. IsAlike c candidate.now) candidates.now at)
        (λ at. AllWithin (λ c. IsBefore (member c) (member candidate.now)) candidates.now 0 at
        × AllWithin (λ c. IsBefore (member candidate.now) (member c)) candidates.now at (length candidates.now)) }
{
    order_of_versions();
    let place = candidates.binary_search_by(
        |c: &Candidate| -> Ordering
            ensures { result ≡ member_order (member c.now) (member candidate.entry.now) }
        { compare(c, candidate) },
    );
    match place {
        Ok(at) => {
            // That both are versions, which tie at equal texts alone, is known of their texts.
            let _ = candidates[at].recipe.version.text();
            let _ = candidate.recipe.version.text();
            Ok(at)
        }
        Err(at) => Err(at),
    }
}

fn has_bytes_of(standing: &Candidate, candidate: &Candidate) -> bool
    ensures { IsTrue result ↔ (standing.now.bytes ≡ candidate.now.bytes) }
{
    standing.bytes.as_slice() == candidate.bytes.as_slice()
}

/// A candidate where one of its name and version stands: that one has the same bytes, or the two clash.
fn settle(standing: &Candidate, candidate: Candidate) -> Result<(), AddRefusal>
    ensures { MatchResult result
        (λ _. standing.now.bytes ≡ candidate.bytes)
        (λ refusal. (refusal ≡ AddRefusal.Clash candidate) × (standing.now.bytes ≢ candidate.bytes)) }
{
    if !has_bytes_of(standing, &candidate) {
        return Err(AddRefusal::Clash(candidate));
    }
    Ok(())
}

/// Puts a candidate at that place, and what stands there and behind it one further.
fn put(
    alloc: Global,
    list: &mut List<Candidate>,
    at: usize,
    candidate: Candidate,
) -> Result<(), AddRefusal>
    requires { at ≤ length list.old }
    ensures put { OnOk result (list.new ≡ insert list.old at candidate) }
    ensures refused { IfErr result (λ refusal. (list.new ≡ list.old) × (refusal ≡ AddRefusal.NoMemory candidate)) }
{
    let mut items = mem::replace(list, List::empty(alloc)).into_vec();
    match items.insert(at, candidate) {
        Ok(()) => {
            *list = List::new(items);
            Ok(())
        }
        Err(refused) => {
            *list = List::new(items);
            Err(AddRefusal::NoMemory(refused.value))
        }
    }
}

impl Candidates {
    ghost use Rattle.recipe_reader.specs.Refused.{IsRefused};

    /// The built-in candidate alone: the component `aws.greengrass.Nucleus` in this version, without steps.
    pub fn with_nucleus(alloc: Global, version: &Version) -> Result<Candidates, NoMemory>
        ensures { IfOk result (λ cs. (c : Candidate) × (cs ≡ c ∷ []) × IsNucleus version.now c) }
    {
        let mut list = List::empty(alloc);
        list.push(nucleus_of(alloc, version)?)?;
        Ok(Candidates { alloc, list })
    }

    /// The candidates in order, without taking memory.
    pub fn list(&self) -> &List<Candidate>
        ensures value { result.now ≡ self.now }
        ensures rule { AreCandidates self.now }
    {
        &self.list
    }

    /// Puts a candidate in its place. One of the same name and version with the same bytes stays, and nothing changes;
    /// one with other bytes is a clash. The place is found by halves, and what stands behind it moves up by one.
    pub fn add(&mut self, candidate: Candidate) -> Result<(), AddRefusal>
        requires read { IsRead candidate }
        requires room { length self.old < 2 ^ 32 - 1 }
        ensures added { OnOk result (IsAdded self.old candidate self.new) }
        ensures agrees { OnOk result (HasClash self.old candidate → ⊥) }
        ensures refused { IfErr result (IsRefused self.old candidate) }
        ensures unchanged { OnErr result (self.new ≡ self.old) }
        ensures rule { AreCandidates self.new }
    {
        match place_of(self.list.as_slice(), &candidate) {
            Ok(at) => settle(&self.list.as_slice()[at], candidate),
            Err(at) => put(self.alloc, &mut self.list, at, candidate),
        }
    }
}
