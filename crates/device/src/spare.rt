// What is made ready for the steps up to the close of a plan.
ghost use Rattle.std.specs.Prelude.{◌≡◌, ◌≤◌, None, length, map, IfOk, OnOk};
ghost use Rattle.std.specs.List.{IsDistinct};
ghost use Rattle.std.specs.Option.{IfSome};
ghost use Rattle.std.specs.Map.{lookup};
ghost use Rattle.std.specs.Str.{bytes_eq};
ghost use Rattle.records.specs.Stored.{item_view, plan_view};
ghost use Rattle.device.specs.Devices.{device_view};
ghost use Rattle.device.specs.Grouped.{put_group, with_group};
ghost use Rattle.device.specs.Sound.{IsSound, arns, ids};
ghost use Rattle.device.specs.Spares.{FlagBacks, IsSpareFor};

use crate::backs::tell_backs;
use crate::closed::Closed;
use crate::device::Device;
use crate::groups::Groups;
use nuc_base::{Copied, NoMemory, Outcome};
use records::{Group, Plan};
use std::alloc::Global;

/// What the steps up to the close of a plan need that takes memory, made beforehand.
#[derive(Debug, Drop)]
pub struct Spare {
    /// The closed deployments with the plan's behind them, whose outcome is written at the close.
    pub(crate) closed: Closed,
    /// The groups as the plan leaves them.
    pub(crate) groups: Groups,
    /// Which of the plan's bootstrap steps, by their places, run again on the way back.
    pub(crate) back_flags: [bool; 128],
}

fn copy_closed(alloc: Global, closed: &Closed) -> Result<Closed, NoMemory>
    requires { IsDistinct bytes_eq (ids closed.now) }
    ensures { IfOk result (λ copy. copy ≡ closed.now) }
{
    let entries = closed.as_slice();
    let mut copy = Closed::empty(alloc);
    for entry in entries {
        copy.add(alloc, &entry.0, entry.1)?;
    }
    Ok(copy)
}

fn copy_groups(alloc: Global, groups: &Groups) -> Result<Groups, NoMemory>
    requires { IsDistinct bytes_eq (arns groups.now.list) }
    ensures { IfOk result (λ copy. copy.list ≡ groups.now.list) }
{
    let mut copy = Groups::empty(alloc);
    for at in 0..groups.len() {
        let group = groups.nth(at).unwrap().copy(alloc)?;
        join(alloc, &mut copy, group)?;
    }
    Ok(copy)
}

/// Puts the group in its place.
pub(crate) fn join(alloc: Global, groups: &mut Groups, group: Group) -> Result<(), NoMemory>
    ensures { OnOk result (groups.new.list ≡ put_group groups.old.list group) }
{
    groups.make_room()?;
    let key = group.arn.copy(alloc)?;
    groups.put(key, group);
    Ok(())
}

impl Device {
    /// What the steps up to the close of the plan need, which the device has or is to take.
    pub fn spare(&self, alloc: Global, plan: &Plan) -> Result<Spare, NoMemory>
        requires fresh { lookup (bytes_eq plan.now.id) self.now.closed ≡ None }
        requires few { length plan.now.boots ≤ 128 }
        requires sound { IsSound (device_view self.now) }
        ensures { IfOk result (λ spare. IsSpareFor spare (device_view self.now) (plan_view plan.now)) }
    {
        let mut closed = copy_closed(alloc, &self.closed)?;
        closed.add(alloc, &plan.id, Outcome::Successful)?;
        let groups = self.groups_behind(alloc, plan)?;
        let back_flags = self.back_flags(alloc, plan)?;
        Ok(Spare {
            closed,
            groups,
            back_flags,
        })
    }

    fn groups_behind(&self, alloc: Global, plan: &Plan) -> Result<Groups, NoMemory>
        requires { IsDistinct bytes_eq (arns self.now.groups.list) }
        ensures { IfOk result (λ groups. groups.list ≡ with_group self.now.groups.list (plan_view plan.now)) }
    {
        let mut groups = copy_groups(alloc, &self.groups)?;
        let group = Group {
            arn: plan.group.copy(alloc)?,
            revision: self.revision_after(plan),
            requirements: plan.requirements.copy(alloc)?,
        };
        join(alloc, &mut groups, group)?;
        Ok(groups)
    }

    fn back_flags(&self, alloc: Global, plan: &Plan) -> Result<[bool; 128], NoMemory>
        requires { length plan.now.boots ≤ 128 }
        ensures { IfOk result (λ flags. IfSome self.now.origin (FlagBacks (map item_view self.now.set) plan.now.boots flags)) }
    {
        let mut flags = [false; 128];
        if let Some(origin) = &self.origin {
            let boots = plan.boots.as_slice();
            let _told = tell_backs(
                alloc,
                &origin.platform,
                self.set.as_slice(),
                boots,
                &mut flags,
            )?;
        }
        Ok(flags)
    }
}
