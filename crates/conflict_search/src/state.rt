//! What a search keeps.

use crate::board::Board;
use crate::nogoods::Nogoods;
use crate::trail::Trail;
use crate::watches::Watches;

/// The walk, what is known, and what is left of each name. `full` has all values of all names; `room` is how many bytes more
/// what is learned may take.
#[derive(Drop)]
pub(crate) struct State<'a> {
    pub(crate) board: Board<'a>,
    pub(crate) nogoods: Nogoods,
    pub(crate) trail: Trail,
    pub(crate) watches: Watches,
    pub(crate) full: Vec<u64>,
    pub(crate) room: u64,
}
