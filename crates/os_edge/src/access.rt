//! What a run does with a journal.

/// Whether a run may write into the journal's files, or only reads them.
#[derive(Clone, Copy, Debug, PartialEq, Eq)]
pub enum Access {
    /// No row is written: at most an empty journal is begun. Other runs may read at the same time.
    Reading,
    /// No other run may work on the journal at the same time.
    Writing,
}
