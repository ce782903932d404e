//! What is answered to messages.

use crate::outcome::Outcome;
use relay_store::StoreFault;

/// What is answered to messages: an outcome for each that was taken, in order, and the fault that came then, if one did.
#[derive(Drop)]
pub struct Batch {
    /// The outcomes.
    pub outcomes: Vec<Outcome>,
    /// The fault.
    pub fault: Option<StoreFault>,
}
