//! What a run goes on with.

use crate::tally::Tally;
use relay_store::Store;

/// The store, and what is kept for the report.
#[derive(Drop)]
pub struct Run {
    /// The store.
    pub store: Store,
    /// What is kept for the report.
    pub tally: Tally,
}
