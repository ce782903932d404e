//! What a check by itself reads of a commit's blocks.

use at_car::Car;
use at_cid::Cid;

/// The CAR of a commit event, and the `data` of the commit object under its first root.
#[derive(Drop)]
pub(crate) struct Content {
    pub car: Car,
    pub data_root: Cid,
}
