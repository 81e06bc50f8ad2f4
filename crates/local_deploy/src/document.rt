//! The document of a request.
ghost use Rattle.std.specs.Prelude.{◌≡◌, ℕ, List, None, map, IfOk, OnOk, if◌then◌else◌};
ghost use Rattle.std.specs.Cmp.Lexicographic.{slice_cmp};
ghost use Rattle.std.specs.List.{list_any};
ghost use Rattle.std.specs.List.Sorted.{IsStrictlySortedBy};
ghost use Rattle.std.specs.Map.{keys_of};
ghost use Rattle.std.specs.Ordering.{nat_cmp};
ghost use Rattle.std.specs.Str.{bytes_eq};
ghost use Rattle.deployment_doc.specs.Sound.{AreSound};
ghost use Rattle.device.specs.Devices.{device_view};
ghost use Rattle.device.specs.Sound.{IsSound};
ghost use Rattle.local_deploy.specs.Documents.{MakesLocal, root_for};
ghost use Rattle.local_deploy.specs.Lists.{local_arn, range_at};
ghost use Rattle.local_deploy.specs.Sound.{IsSoundRequest};

use crate::list::{asked_of, local_list, not_asked};
use crate::refusal::LocalRefusal;
use crate::request::LocalRequest;
use config_ops::Update;
use deployment_doc::{Document, Root};
use device::Device;
use npm_ranges::Range;
use nuc_base::{Copied, Label, List, Name, NameFault, NoMemory};
use std::alloc::Global;
use std::collections::BTreeMap;

/// The most components that the group may require.
const MOST_REQUIREMENTS: usize = 128;

/// The document that the request makes of the device: of the group `local` and no revision, with all that this group asks
/// after the request, and each update at its name. The first refusal answers: the least removed name that the group does
/// not require; that it would require more than 128; the least updated name that it would not require.
pub fn local_document(
    alloc: Global,
    device: &Device,
    request: LocalRequest,
) -> Result<Document, LocalRefusal>
    requires device { IsSound (device_view device.now) }
    requires request { IsSoundRequest request }
    ensures exact { MakesLocal (device_view device.now) request result }
    ensures sound { IfOk result (λ document. AreSound document.roots) }
{
    let LocalRequest {
        id,
        policy,
        merge,
        remove,
        updates,
    } = request;
    let group = local_group(alloc)?;
    let asked = asked_of(&device.groups, &group);
    if let Some(name) = not_asked(asked, remove.as_slice()) {
        return Err(LocalRefusal::NotLocal(name.copy(alloc)?));
    }
    let list = local_list(alloc, asked, remove.as_slice(), merge)?;
    if list.len() > MOST_REQUIREMENTS {
        return Err(LocalRefusal::TooManyLocal(list.len() as u32));
    }
    let mut left = by_name(alloc, updates)?;
    let roots = roots_of(alloc, list, &mut left)?;
    if let Some((name, _)) = left.first_key_value() {
        return Err(LocalRefusal::Unlisted(name.copy(alloc)?));
    }
    Ok(Document {
        id,
        group,
        revision: 0,
        policy,
        roots,
    })
}

fn local_group(alloc: Global) -> Result<Label, NoMemory>
    ensures { IfOk result (λ arn. arn ≡ local_arn) }
{
    match Label::read(alloc, "local".as_bytes()) {
        Ok(label) => Ok(label),
        Err(NameFault::Bad) => unreachable!(),
        Err(NameFault::NoMemory) => Err(NoMemory),
    }
}

/// The updates, to be taken by their names.
fn by_name(alloc: Global, updates: List<(Name, Update)>) -> Result<BTreeMap<Name, Update>, NoMemory>
    requires { IsStrictlySortedBy (slice_cmp nat_cmp) (keys_of updates) }
    ensures { IfOk result (λ named. (q : List ℕ) → range_at q named.entries ≡ range_at q updates) }
{
    let mut named = BTreeMap::new(alloc);
    for (name, update) in updates.into_vec() {
        drop(named.insert(name, update)?);
    }
    Ok(named)
}

/// The list as roots, each with its update, which is taken out of the others.
fn roots_of(
    alloc: Global,
    mut list: BTreeMap<Name, Range>,
    updates: &mut BTreeMap<Name, Update>,
) -> Result<List<Root>, NoMemory>
    ensures roots { IfOk result (λ roots. roots ≡ map (root_for updates.old.entries) list.entries) }
    ensures left { OnOk result ((q : List ℕ) → range_at q updates.new.entries
        ≡ (if list_any (bytes_eq q) (keys_of list.entries) then None else range_at q updates.old.entries)) }
{
    let mut roots = Vec::with_capacity(alloc, list.len())?;
    'names: while let Some((name, range)) = list.pop_first() {
        let update = updates.remove(&name);
        roots.push(Root {
            name,
            range,
            update,
        })?;
    }
    Ok(List::new(roots))
}
