//! The queries over HTTP: what is replied to a request about the accounts of a journal
//! (`com.atproto.sync.listRepos`, `getRepoStatus` and `getLatestCommit`).
#![tactic(auto)]

mod account;
mod answering;
mod listing;
mod params;
mod replies;
mod reply;

pub use answering::answer;
