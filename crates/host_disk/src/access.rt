/// What a program does with a store.
#[derive(Clone, Copy, Debug, PartialEq, Eq)]
pub enum Access {
    /// It reads, beside a program that writes.
    Read,
    /// It may write to a store of its own user. One program at a time does.
    Write,
    /// It may write, and makes the store where none is yet.
    Make,
}

impl Access {
    pub fn writes(self) -> bool {
        self != Access::Read
    }
}
