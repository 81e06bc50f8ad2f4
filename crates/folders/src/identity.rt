/// Which file something is, whatever its name: the device and the number that the system gives it, or a number in memory.
/// Two files that stand at one moment have different ones. The number of a file that is gone may be given again.
#[derive(Clone, Copy, Debug, PartialEq, Eq)]
pub struct Identity {
    pub device: u64,
    pub number: u64,
}
