use nuc_base::Step;

/// One that lives: its number, its step, and until when it may.
#[derive(Clone, Copy, Debug, PartialEq, Eq)]
pub struct Child {
    pub number: u64,
    pub of: Step,
    pub deadline: Option<u64>,
}
