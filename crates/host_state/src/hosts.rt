//! The table of hosts.

ghost use Rattle.std.specs.Prelude.{◌≤◌, length};
ghost use Rattle.indexmap.specs.IndexMap.{spare};

use indexmap::IndexMap;
use std::alloc::Global;

/// The hosts that rows name, in the order of their first rows, each with its cursor: how far its
/// stream was taken.
///
/// The name of a host that was touched and that no row names yet lies apart, with room in the map. A host's rows
/// mostly stand one behind another, so the place of the host that was set last is kept, and looked at first.
#[derive(Drop)]
pub struct Hosts {
    pub(crate) alloc: Global,
    pub(crate) map: IndexMap<String, u64>,
    pub(crate) recent: usize,
    pub(crate) ready: IndexMap<String, ()>,
    ghost has_room: { length ready.entries ≤ spare map },
}
