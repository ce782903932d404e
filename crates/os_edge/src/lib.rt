//! The files, the standard streams and the clock of the machine: the forms of the traits of
//! `relay_io`, `relay_disk` and `at_authority` that stand on the system. They promise to be safe
//! and to count their faults; of what the system holds they show nothing. Each reports what
//! failed, and why, on standard error. Sockets stand in `ws_edge`.
#![tactic(auto)]

mod access;
mod descriptors;
mod file_authority;
mod file_repos;
mod generation;
mod journal;
mod journal_file;
mod paths;
mod reader_source;
mod reporter;
mod stamp;
mod system_clock;
mod table_text;
mod unsynced;
mod waiting;
mod writer_sink;

pub use access::Access;
pub use descriptors::{Closed, hold_descriptors};
pub use file_authority::FileAuthority;
pub use file_repos::FileRepos;
pub use generation::record_generation;
pub use journal::{Journal, Unopened, are_apart, open_journal};
pub use journal_file::JournalFile;
pub use paths::path_in;
pub use reader_source::ReaderSource;
pub use reporter::Reporter;
pub use system_clock::SystemClock;
pub use table_text::names_host;
pub use writer_sink::WriterSink;
