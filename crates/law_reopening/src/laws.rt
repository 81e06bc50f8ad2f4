// Laws of the images at the end of a call, on a function that does nothing.
ghost use Rattle.law_reopening.specs.Failed.{FailuresComeFirst};
ghost use Rattle.law_reopening.specs.Reopened.{BootStartsStand, FailuresStand, StartsStand};

use disk_model::Disk;
use gate_log::Journal;

/// What was recorded before a step or a bootstrap started is in each image that a crash may leave at the end of the call. So each
/// bootstrap that started has its beginning there, or had it as the call began; and no step and no bootstrap starts behind a failure
/// of a component, while a deployment is pending, whose record one of these images lacks. It does nothing.
pub fn starts_stand<J: Journal, D: Disk>()
    ensures recorded { FailuresComeFirst }
    ensures starts { StartsStand J.entries D.may_leave }
    ensures boots { BootStartsStand J.entries D.may_leave }
    ensures failures { FailuresStand J.entries D.may_leave }
{}

#[cfg(test)]
mod tests {
    use crate::laws::starts_stand;
    use disk_model::MemoryDisk;
    use gate_log::Log;

    #[test]
    fn laws_are_of_disks_in_memory() {
        starts_stand::<Log, MemoryDisk>();
    }
}
