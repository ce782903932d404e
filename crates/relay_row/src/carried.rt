//! What a journal keeps of rows that were cut off.

use at_cid::Words;
use at_event::Head;
use at_syntax::Tid;

/// What is known of the repository of a carried account.
#[derive(Debug, Drop)]
pub enum CarriedRepo {
    /// Nothing.
    Missing,
    /// Its head.
    Good(Head),
    /// It was lost behind this revision, if there was one.
    Lost(Option<Tid>),
}

/// An account, carried over from a journal that was cut.
#[derive(Debug, Drop)]
pub struct CarriedAccount {
    /// The account.
    pub did: Words,
    /// Whether its host serves the repository.
    pub active: bool,
    /// Why not, where the host said so.
    pub status: Option<Words>,
    /// Whether the operator took it down.
    pub down: bool,
    /// Its repository.
    pub repo: CarriedRepo,
}

/// What was carried over from a journal that was cut.
#[derive(Debug, Drop)]
pub enum Carried {
    /// The last number.
    Last(u64),
    /// A host, and its cursor.
    Host(Words, u64),
    /// An account.
    Account(CarriedAccount),
}
