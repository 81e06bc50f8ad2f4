//! Whole records.
ghost use Rattle.std.specs.Prelude.{◌≡◌, ◌++◌, ◌∷◌, ℕ, List, map, Option, IfOk, OnOk, IfSome, IfNone};
ghost use Rattle.records.specs.Codec.{whole};
ghost use Rattle.records.specs.Layout as layout;
ghost use Rattle.records.specs.Layout.{Spelled, IsWritable, RecordFits, record_spelled};
ghost use Rattle.records.specs.Gives.{ReadOutcome};
ghost use Rattle.records.specs.Stored.{item_view, plan_view, record_view};
ghost use Rattle.records.specs.Stored as stored;

use crate::coded::Coded;
use crate::numbers::Revision;
use crate::record::{Group, Item, Origin, Plan, Record, Requirement};
use crate::stop::Stop;
use nuc_base::{Bytes, Exit, Label, List, Name, NoMemory, Outcome, Policy, Step};
use std::alloc::Global;

fn all_of<T: Coded>(alloc: Global, bytes: &[u8]) -> Result<T, Stop>
    ensures { ReadOutcome T.seen result (whole (T.at bytes.now)) }
{
    let (value, rest) = T::take(alloc, bytes)?;
    if rest.is_empty() {
        Ok(value)
    } else {
        Err(Stop::Bad)
    }
}

fn ended_boot_of(alloc: Global, bytes: &[u8]) -> Result<Record, Stop>
    ensures { ReadOutcome record_view result (layout.boot_ended.of bytes.now) }
{
    let (name, exit) = all_of::<(Name, Exit)>(alloc, bytes)?;
    Ok(Record::BootEnded(name, exit))
}

fn failed_step_of(alloc: Global, bytes: &[u8]) -> Result<Record, Stop>
    ensures { ReadOutcome record_view result (layout.step_failed.of bytes.now) }
{
    let (name, (step, exit)) = all_of::<(Name, (Step, Exit))>(alloc, bytes)?;
    Ok(Record::StepFailed(name, step, exit))
}

fn turned_of(alloc: Global, bytes: &[u8]) -> Result<Record, Stop>
    ensures { ReadOutcome record_view result (layout.turned.of bytes.now) }
{
    let (number, (origin, (groups, (items, closed)))) = all_of::<
        (u64, (Origin, (u32, (u32, u32)))),
    >(alloc, bytes)?;
    Ok(Record::Turned(number, origin, groups, items, closed))
}

fn ended_of(alloc: Global, bytes: &[u8]) -> Result<Record, Stop>
    ensures { ReadOutcome record_view result (layout.ended.of bytes.now) }
{
    let (id, outcome) = all_of::<(Label, Outcome)>(alloc, bytes)?;
    Ok(Record::Ended(id, outcome))
}

/// What a plan has behind its revision.
type Wanted = (Policy, (List<Requirement>, (List<Item>, List<Name>)));

fn plan_of(id: Label, group: Label, revision: u64, wanted: Wanted) -> Plan
    ensures { plan_view result ≡ layout.plan_of id group revision (wanted.0, (wanted.1.0, (map item_view wanted.1.1.0, wanted.1.1.1))) }
{
    let (policy, (requirements, (items, boots))) = wanted;
    Plan {
        id,
        group,
        revision,
        policy,
        requirements,
        items,
        boots,
    }
}

fn accepted_of(alloc: Global, bytes: &[u8]) -> Result<Record, Stop>
    ensures { ReadOutcome record_view result (layout.accepted.of bytes.now) }
{
    let (id, (group, wanted)) = all_of::<(Label, (Label, Wanted))>(alloc, bytes)?;
    Ok(Record::Accepted(plan_of(id, group, 0, wanted)))
}

fn accepted_revised_of(alloc: Global, bytes: &[u8]) -> Result<Record, Stop>
    ensures { ReadOutcome record_view result (layout.accepted_revised.of bytes.now) }
{
    let (id, (group, (revision, wanted))) = all_of::<(Label, (Label, (Revision, Wanted)))>(
        alloc, bytes,
    )?;
    Ok(Record::Accepted(plan_of(id, group, revision.0, wanted)))
}

fn grouped_of(alloc: Global, bytes: &[u8]) -> Result<Record, Stop>
    ensures { ReadOutcome record_view result (layout.grouped.of bytes.now) }
{
    let (arn, requirements) = all_of::<(Label, List<Requirement>)>(alloc, bytes)?;
    Ok(Record::Grouped(Group {
        arn,
        revision: 0,
        requirements,
    }))
}

fn grouped_revised_of(alloc: Global, bytes: &[u8]) -> Result<Record, Stop>
    ensures { ReadOutcome record_view result (layout.grouped_revised.of bytes.now) }
{
    let (arn, (revision, requirements)) = all_of::<(Label, (Revision, List<Requirement>))>(
        alloc, bytes,
    )?;
    Ok(Record::Grouped(Group {
        arn,
        revision: revision.0,
        requirements,
    }))
}

#[tactic(auto, unfolding(crate::specs::Layout::record_of))]
fn record_of(alloc: Global, bytes: &[u8]) -> Result<Record, Stop>
    ensures { ReadOutcome record_view result (layout.record_of bytes.now) }
{
    match bytes {
        [first, rest @ ..] => tagged_of(alloc, *first, rest),
        [] => Err(Stop::Bad),
    }
}

#[tactic(auto, unfolding(crate::specs::Layout::record_of))]
fn tagged_of(alloc: Global, first: u8, rest: &[u8]) -> Result<Record, Stop>
    ensures { ReadOutcome record_view result (layout.record_of (first ∷ rest.now)) }
{
    match first {
        0x11 => Ok(Record::Genesis(all_of(alloc, rest)?)),
        0x12 => accepted_of(alloc, rest),
        0x13 => Ok(Record::BootBegun(all_of(alloc, rest)?)),
        0x14 => ended_boot_of(alloc, rest),
        0x15 => {
            all_of::<()>(alloc, rest)?;
            Ok(Record::Activating)
        }
        0x16 => failed_step_of(alloc, rest),
        0x17 => Ok(Record::Failing(all_of(alloc, rest)?)),
        0x18 => Ok(Record::Closed(all_of(alloc, rest)?)),
        0x19 => turned_of(alloc, rest),
        0x1a => grouped_of(alloc, rest),
        0x1b => Ok(Record::Kept(all_of(alloc, rest)?)),
        0x1c => ended_of(alloc, rest),
        0x1d => accepted_revised_of(alloc, rest),
        0x1e => grouped_revised_of(alloc, rest),
        0x1f => Ok(Record::FailingBack(all_of(alloc, rest)?)),
        _ => Err(Stop::Bad),
    }
}

/// Writes a record that is one byte and a value.
fn put_tagged<T: Coded>(
    first: u8,
    value: &T,
    alloc: Global,
    out: &mut Vec<u8>,
) -> Result<(), NoMemory>
    requires { T.asks (T.seen value.now) }
    ensures spelled { OnOk result (out.new.items ≡ out.old.items ++ first ∷ T.spell (T.seen value.now)) }
    ensures fits { OnOk result (T.fits (T.seen value.now)) }
{
    out.push(first)?;
    value.put(alloc, out)
}

fn put_wanted(plan: &Plan, alloc: Global, out: &mut Vec<u8>) -> Result<(), NoMemory>
    requires { layout.wanted.Asks (layout.wanted_of (plan_view plan.now)) }
    ensures spelled { OnOk result (out.new.items ≡ out.old.items ++ layout.wanted.spell (layout.wanted_of (plan_view plan.now))) }
    ensures fits { OnOk result (layout.wanted.Fits (layout.wanted_of (plan_view plan.now))) }
{
    plan.policy.put(alloc, out)?;
    plan.requirements.put(alloc, out)?;
    plan.items.put(alloc, out)?;
    plan.boots.put(alloc, out)
}

fn put_plan(plan: &Plan, alloc: Global, out: &mut Vec<u8>) -> Result<(), NoMemory>
    requires { IsWritable (stored.Accepted (plan_view plan.now)) }
    ensures spelled { OnOk result (out.new.items ≡ out.old.items ++ record_spelled (stored.Accepted (plan_view plan.now))) }
    ensures fits { OnOk result (RecordFits (stored.Accepted (plan_view plan.now))) }
{
    if plan.revision == 0 {
        put_tagged(0x12, &plan.id, alloc, out)?;
        plan.group.put(alloc, out)?;
        return put_wanted(plan, alloc, out);
    }
    put_tagged(0x1d, &plan.id, alloc, out)?;
    plan.group.put(alloc, out)?;
    Revision(plan.revision).put(alloc, out)?;
    put_wanted(plan, alloc, out)
}

fn put_group(group: &Group, alloc: Global, out: &mut Vec<u8>) -> Result<(), NoMemory>
    requires { IsWritable (stored.Grouped group.now) }
    ensures spelled { OnOk result (out.new.items ≡ out.old.items ++ record_spelled (stored.Grouped group.now)) }
    ensures fits { OnOk result (RecordFits (stored.Grouped group.now)) }
{
    if group.revision == 0 {
        put_tagged(0x1a, &group.arn, alloc, out)?;
        return group.requirements.put(alloc, out);
    }
    put_tagged(0x1e, &group.arn, alloc, out)?;
    Revision(group.revision).put(alloc, out)?;
    group.requirements.put(alloc, out)
}

fn put_turned(
    number: u64,
    origin: &Origin,
    counts: (u32, (u32, u32)),
    alloc: Global,
    out: &mut Vec<u8>,
) -> Result<(), NoMemory>
    requires { layout.origin.Asks origin.now }
    ensures spelled { OnOk result (out.new.items ≡ out.old.items ++ record_spelled (stored.Turned number origin.now counts.0 counts.1.0 counts.1.1)) }
    ensures fits { OnOk result (RecordFits (stored.Turned number origin.now counts.0 counts.1.0 counts.1.1)) }
{
    put_tagged(0x19, &number, alloc, out)?;
    origin.put(alloc, out)?;
    counts.put(alloc, out)
}

fn put_record(entry: &Record, alloc: Global, out: &mut Vec<u8>) -> Result<(), NoMemory>
    requires { IsWritable (record_view entry.now) }
    ensures spelled { OnOk result (out.new.items ≡ out.old.items ++ record_spelled (record_view entry.now)) }
    ensures fits { OnOk result (RecordFits (record_view entry.now)) }
{
    match entry {
        Record::Genesis(origin) => put_tagged(0x11, origin, alloc, out),
        Record::Accepted(plan) => put_plan(plan, alloc, out),
        Record::BootBegun(name) => put_tagged(0x13, name, alloc, out),
        Record::BootEnded(name, exit) => {
            put_tagged(0x14, name, alloc, out)?;
            exit.put(alloc, out)
        }
        Record::Activating => put_tagged(0x15, &(), alloc, out),
        Record::StepFailed(name, step, exit) => {
            put_tagged(0x16, name, alloc, out)?;
            step.put(alloc, out)?;
            exit.put(alloc, out)
        }
        Record::Failing(name) => put_tagged(0x17, name, alloc, out),
        Record::FailingBack(name) => put_tagged(0x1f, name, alloc, out),
        Record::Closed(outcome) => put_tagged(0x18, outcome, alloc, out),
        Record::Turned(number, origin, groups, items, closed) => {
            put_turned(*number, origin, (*groups, (*items, *closed)), alloc, out)
        }
        Record::Grouped(group) => put_group(group, alloc, out),
        Record::Kept(item) => put_tagged(0x1b, item, alloc, out),
        Record::Ended(id, outcome) => {
            put_tagged(0x1c, id, alloc, out)?;
            outcome.put(alloc, out)
        }
    }
}

impl Record {
    /// The one spelling of the record. Its trees are regular, and its lengths and counts are below 2^32.
    pub fn write(&self, alloc: Global) -> Result<Bytes, NoMemory>
        requires { IsWritable (record_view self.now) }
        ensures { IfOk result (λ bytes. Spelled bytes (record_view self.now)) }
    {
        let mut out = Vec::new(alloc);
        put_record(self, alloc, &mut out)?;
        Ok(Bytes::new(out))
    }

    /// The record that the bytes spell, all of the bytes; it can be written again. It is `None` exactly where they are the spelling of no record.
    pub fn read(alloc: Global, bytes: &[u8]) -> Result<Option<Record>, NoMemory>
        ensures found { IfOk result (λ o. IfSome o (λ r. Spelled bytes.now (record_view r))) }
        ensures writable { IfOk result (λ o. IfSome o (λ r. IsWritable (record_view r))) }
        ensures none { IfOk result (λ o. IfNone o ((r : stored.Record) → Spelled bytes.now r → ⊥)) }
        ensures only { (r : stored.Record) → Spelled bytes.now r → IfOk result (λ o. IfSome o (λ x. record_view x ≡ r)) }
    {
        match record_of(alloc, bytes) {
            Ok(record) => Ok(Some(record)),
            Err(Stop::Bad) => Ok(None),
            Err(Stop::Memory) => Err(NoMemory),
        }
    }
}
