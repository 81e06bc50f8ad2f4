//! The states of a deployment in which bootstrap steps run.
ghost use Rattle.std.specs.Prelude.{◌≡◌, OnOk, IfOk, IsOkAnd, option_map};
ghost use Rattle.nuc_base.specs.Faults.{HasCause};
ghost use Rattle.records.specs.Stored.{Record};
ghost use Rattle.device.specs.Devices.{device_view};
ghost use Rattle.device.specs.Lawful.{applied};
ghost use Rattle.device.specs.Marks.{IsMark};
ghost use Rattle.device.specs.declared.mark.Mark.TheVariants as marks;
ghost use Rattle.deploy_state.specs.Objects.{KeepsOthers, LeavesOneOf, OwnsOver};
ghost use Rattle.deploy_state.specs.Fields.{CanBegin, IsBegun, has_failed, next_name};
ghost use Rattle.deploy_state.specs.Owned.{MayMark};
ghost use Rattle.deploy_state.specs.States.{device_of};
ghost use Rattle.deploy_state.specs.declared.state.Hand.{Hand};
ghost use Rattle.session_boots.specs.Staged.{OwnsStage};

use deploy_state::{Backed, Booting, Stopped};
use device::Device;
use disk_model::Disk;
use gate_log::Journal;
use nuc_base::{Exit, Name};

/// A state of a deployment in which bootstrap steps run, also behind the end of the last of them.
pub(crate) trait BootStage<J: Journal + Drop>: Drop + Sized {
    /// The journal and the device for which it stands.
    ghost hand: { Self → Hand J };

    /// The state is that of the stage in which its device is.
    ghost is_staged: { Self → Type 0 };

    /// The device for which the journal stands.
    fn device(&self) -> &Device
        ensures { device_view result.now ≡ device_of (hand self.now) };

    /// The bootstrap step after the ended ones.
    fn next(&self) -> Option<&Name>
        requires { is_staged self.now }
        ensures { option_map (λ n. n.now) result ≡ next_name (device_of (hand self.now)) };

    /// Whether that one failed.
    fn failed(&self) -> bool
        ensures { result ≡ has_failed (device_of (hand self.now)) };

    /// Records that the next bootstrap step begins, unless that is recorded.
    fn begin<D: Disk>(self, disk: &mut D) -> Result<Self, Stopped<J>>
        requires held { OwnsOver D.Disk J.Journal (OwnsStage hand is_staged) self disk.old }
        requires may { CanBegin (device_of (hand self)) }
        ensures moments { (r : Record) → IsMark (device_of (hand self)) marks.BootBegun r →
            LeavesOneOf D.Disk J.Journal disk.old disk.new (device_of (hand self)) (applied (device_of (hand self)) r) }
        ensures taken { (r : Record) → IsMark (device_of (hand self)) marks.BootBegun r →
            IfOk result (λ s. device_of (hand s) ≡ applied (device_of (hand self)) r) }
        ensures held { IfOk result (λ s. OwnsOver D.Disk J.Journal (OwnsStage hand is_staged) s disk.new) }
        ensures silent { IsBegun (device_of (hand self)) → (disk.new ≡ disk.old) × IsOkAnd result (λ s. s ≡ self) }
        ensures others { KeepsOthers D.Disk J.Journal disk.old disk.new }
        ensures cause { HasCause (D.faults disk.old) (D.faults disk.new) result }
        ensures quiet { OnOk result (D.faults disk.new ≡ D.faults disk.old) };

    /// Records how the bootstrap step that was begun ended.
    fn ended<D: Disk>(self, disk: &mut D, exit: Exit) -> Result<Self, Stopped<J>>
        requires held { OwnsOver D.Disk J.Journal (OwnsStage hand is_staged) self disk.old }
        requires may { MayMark (device_of (hand self)) (marks.BootEnded exit) }
        ensures moments { (r : Record) → IsMark (device_of (hand self)) (marks.BootEnded exit) r →
            LeavesOneOf D.Disk J.Journal disk.old disk.new (device_of (hand self)) (applied (device_of (hand self)) r) }
        ensures taken { (r : Record) → IsMark (device_of (hand self)) (marks.BootEnded exit) r →
            IfOk result (λ s. device_of (hand s) ≡ applied (device_of (hand self)) r) }
        ensures held { IfOk result (λ s. OwnsOver D.Disk J.Journal (OwnsStage hand is_staged) s disk.new) }
        ensures others { KeepsOthers D.Disk J.Journal disk.old disk.new }
        ensures cause { HasCause (D.faults disk.old) (D.faults disk.new) result }
        ensures quiet { OnOk result (D.faults disk.new ≡ D.faults disk.old) };
}

impl<J: Journal + Drop> BootStage<J> for Booting<J> {
    ghost use Rattle.session_boots.specs.Staged.{IsBooting, booting_hand};

    ghost hand = { booting_hand };

    ghost is_staged = { IsBooting };

    fn device(&self) -> &Device {
        self.device()
    }

    fn next(&self) -> Option<&Name> {
        self.next()
    }

    fn failed(&self) -> bool {
        self.failed()
    }

    fn begin<D: Disk>(self, disk: &mut D) -> Result<Self, Stopped<J>> {
        self.begin(disk)
    }

    fn ended<D: Disk>(self, disk: &mut D, exit: Exit) -> Result<Self, Stopped<J>> {
        self.ended(disk, exit)
    }
}

/// Behind the last end on the way back no bootstrap step comes next.
impl<J: Journal + Drop> BootStage<J> for Backed<J> {
    ghost use Rattle.session_boots.specs.Staged.{IsStaged, backed_hand};

    ghost hand = { backed_hand };

    ghost is_staged = { IsStaged };

    fn device(&self) -> &Device {
        match self {
            Backed::Backing(state) => state.device(),
            Backed::Rolling(state) => state.device(),
        }
    }

    fn next(&self) -> Option<&Name> {
        match self {
            Backed::Backing(state) => state.next(),
            Backed::Rolling(_) => None,
        }
    }

    fn failed(&self) -> bool {
        match &self.device().pending {
            Some(pending) => pending.boot_failed,
            None => false,
        }
    }

    fn begin<D: Disk>(self, disk: &mut D) -> Result<Self, Stopped<J>> {
        match self {
            Backed::Backing(state) => match state.begin(disk) {
                Ok(state) => Ok(Backed::Backing(state)),
                Err(stopped) => Err(stopped),
            },
            Backed::Rolling(_) => unreachable!(),
        }
    }

    fn ended<D: Disk>(self, disk: &mut D, exit: Exit) -> Result<Self, Stopped<J>> {
        match self {
            Backed::Backing(state) => state.ended(disk, exit),
            Backed::Rolling(_) => unreachable!(),
        }
    }
}
