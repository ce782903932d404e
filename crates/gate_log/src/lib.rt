//! A log of bodies on a disk, each behind a gate that is opened once the body is durable.
#![tactic(auto)]

mod bodies;
mod building;
mod ending;
mod fault;
mod format;
mod front;
mod laws;
mod limits;
mod log;
mod making;
mod pairs;
mod pending_bodies;
mod picking;
mod records;
mod steps;

pub use building::Build;
pub use fault::LogFault;
pub use format::Format;
pub use laws::{
    equal_fronts_give_the_same_side, faults_are_no_images, faults_are_no_pairs,
    faults_have_one_place, images_have_one_list, pairs_have_one_list, pairs_have_one_place,
    picked_logs_stay_picked,
};
pub use limits::{AROUND_BODY, BEFORE_BODY, BODY_LENGTHS, EMPTY_LEN, LAST_END};
pub use log::Log;
pub use pairs::open_pair;
pub use pending_bodies::{AHEAD, HEAD, begin};
pub use picking::{Side, pick};
