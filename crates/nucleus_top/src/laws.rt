ghost use Rattle.std.specs.Prelude.{[]};
ghost use Rattle.device.specs.Devices.{no_device};
ghost use Rattle.device.specs.Met.{Met};
ghost use Rattle.disk_model.specs.Memory.{left_by};
ghost use Rattle.nucleus_top.specs.Acknowledged.{DeployedStay, ServedStay};
ghost use Rattle.nucleus_top.specs.Bounded.{AcceptsWithin, ServesWithin};
ghost use Rattle.nucleus_top.specs.Completeness.{RestartsAreFew};
ghost use Rattle.nucleus_top.specs.Objects.{DeploysCompleteOver, ResumesGetOnOver};
ghost use Rattle.nucleus_top.specs.Lasting.{RunsCloseMore, RunsLoseNothing, RunsTake};
ghost use Rattle.nucleus_top.specs.Meeting.{BroughtStayMet};
ghost use Rattle.nucleus_top.specs.Opening.{AreFound};
ghost use Rattle.nucleus_top.specs.Reopening.{CallsReopen, ServesReopen};
ghost use Rattle.nucleus_top.specs.Requested.{ChangesMoveOneItem, LocalsMoveOneGroup};
ghost use Rattle.nucleus_top.specs.Series.{AcknowledgedLast, BeginsBehind, CallsRaise, CallsReach, DrivesEnd, DrivesGoOn, FirstBegins};
ghost use Rattle.nucleus_top.specs.Series.{InitsBegin, OthersGoOn, RefusedEnd, RefusedGoOn};

use checkpoint_log::Slots;
use device::revisions_rise;
use disk_model::{Disk, MemoryDisk};
use law_histories::resumes_get_on;
use law_reopening::starts_stand;
use law_whole::requests_keep_the_rest;
use std::alloc::Global;

/// Along a run the closed list only grows, at its end, and a deployment that was accepted is pending or closed afterwards.
/// Where the run ends with a close it did grow. It does nothing.
pub fn nothing_is_lost()
    ensures kept { RunsLoseNothing }
    ensures taken { RunsTake }
    ensures closes { RunsCloseMore }
{}

/// However calls are stopped, each image that they leave stands for the device that the records kept so far make of the one
/// at their start, where each call begins with an image that a crash inside the call before it, or its end, may have left: of
/// a call that came to its end these are all its records, or all but the last, and of one that was stopped some prefix.
/// Its set, groups and closed list are those that the closed deployments give in order, and no deployment is lost that was
/// accepted before. It is met where the one at the start is and devices stay so along each call, as they do along the records
/// of `init` and of calls that bring no plan or one that is met. The calls of `deploy` and `resume` are such calls
/// (`calls_go_on`); so is `init`, which begins without a device and keeps its first record, and what leaves the device as it
/// is. An image that stands for a device with an origin is found as that when it is opened, never as no store or as damaged.
/// No revision of a group falls. It does nothing.
pub fn calls_run_on()
    ensures none { Met no_device }
    ensures met { BroughtStayMet }
    ensures init { InitsBegin }
    ensures others { OthersGoOn }
    ensures reached { CallsReach }
    ensures raised { CallsRaise }
    ensures found { AreFound }
{
    revisions_rise();
}

/// What is said of the images of `deploy`, `resume` and `serve` makes them such calls as `calls_run_on` takes: behind calls that may
/// have left each image at their start, a call that drives a deployment is one more, which begins with the device for which
/// one of these images stands and keeps its records, and one that is refused keeps none. So is each that came to its end,
/// by what it says of the images that a crash may leave then. And there is a first one: on a disk that holds no entry a call begins behind
/// none, so what is asked here can be met. What a call printed as accepted is pending or closed in each image that later calls leave, stopped
/// or at their end (`deployed`, `served`, by `acknowledged`). It does nothing.
pub fn calls_go_on<D: Disk>()
    ensures begins { FirstBegins D.may_leave D.is_modelled D.seen }
    ensures drives { DrivesGoOn D.may_leave D.moment D.left_since }
    ensures refused { RefusedGoOn D.may_leave D.moment D.left_since D.seen }
    ensures drives_end { DrivesEnd D.may_leave }
    ensures refused_end { RefusedEnd D.may_leave D.is_modelled D.seen }
    ensures acknowledged { AcknowledgedLast D.may_leave }
    ensures deployed { DeployedStay D.may_leave D.moment D.left_since D.faults }
    ensures served { ServedStay D.Disk }
{}

/// On a disk in memory that was just made a first call begins, behind none and without a device. So there are such series of calls, and
/// what is said of them does not speak of nothing.
pub fn a_first_call_begins(alloc: Global) -> MemoryDisk
    ensures begins { BeginsBehind left_by no_device [] no_device result }
{
    calls_go_on::<MemoryDisk>();
    MemoryDisk::new(alloc)
}

/// What requests made at the device add to what is said of each deployment (`IsDeployedOn`). One of the group of the device itself
/// accepts the plan of the document of its list, and behind its close, in that call or a later one, the group has that list or the one
/// before, and no other group changed. A change of a configuration, on a whole device, accepts a plan of the device's own items, but
/// for that configuration, changes no group, and never ends with 3, 7 or 13. It does nothing.
pub fn requests_move_what_they_name<D: Disk>()
    ensures local { LocalsMoveOneGroup D.may_leave D.moment D.left_since D.faults }
    ensures change { ChangesMoveOneItem D.may_leave D.moment D.left_since D.faults }
{
    requests_keep_the_rest();
}

/// What `deploy`, `resume` and `serve` say of the images at their end gives what is found when one of these is opened again: each bootstrap that started has
/// its beginning there, and each failure behind which anything started its record (`law_reopening`). So no bootstrap that ended is begun again, and
/// a component is not started anew over a failure that was forgotten. It does nothing.
pub fn calls_reopen<D: Disk>()
    ensures calls { CallsReopen D.may_leave D.moment D.left_since }
    ensures serves { ServesReopen D.Disk }
{
    starts_stand::<Slots, D>();
}

/// A deployment that nothing prevents is accepted, and one in which nothing fails ends well or gets on. What `deploy`, `local` and `config-set` say,
/// on a store that stands for a device with nothing pending, gives that the records begin with the plan and the status is 0, 10, 11, 12, 100 or 101,
/// where the request comes to a document that passes each check and no count rises; and that it is 0, 100 or 101 where no end, no refused start and
/// no passed limit at the runner is a failure. What `resume` says gives that it ends with 0 then, or leaves one more bootstrap of the plan ended,
/// so that a plan needs no more restarts than it has bootstraps. Want of memory is free. It does nothing.
pub fn calls_complete<D: Disk>()
    ensures deploys { DeploysCompleteOver D.Disk }
    ensures resumes { ResumesGetOnOver D.Disk }
    ensures restarts { RestartsAreFew }
{
    resumes_get_on();
}

/// Where the journal can turn, a plan that `deploy`, `local` or `config-set` accepts leaves its live entries within twice the front of the device and
/// 1,048,576 bytes more, or within that front and the plan's own entry. So does the plan of each document that `serve` handles. So a store does not
/// grow for ever. It does nothing.
pub fn journals_stay_small<D: Disk>()
    ensures accepts { AcceptsWithin D.may_leave D.moment D.left_since D.faults }
    ensures serves { ServesWithin D.Disk }
{}
