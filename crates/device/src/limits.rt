//! The limits of a device, which `specs/Limits.antt` names.

/// The most bytes of the path of a device's folder.
pub const MOST_ROOT: usize = 1024;

/// The most groups of a device.
pub const MOST_GROUPS: usize = 512;

/// The most closed deployments of a device.
pub const MOST_CLOSED: usize = 131_072;

/// The most items of a set, and the most requirements, items and boots of a plan.
pub const MOST_ELEMENTS: usize = 128;

/// The most bytes of a configuration's text.
pub const MOST_CONFIG: usize = 65_536;

/// What a pending deployment may add to a journal.
pub const ROOM_OF_PLAN: u64 = 1_048_576;
