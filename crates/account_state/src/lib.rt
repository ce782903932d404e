//! The accounts that the rows of a journal name, each as the rows leave it.
#![tactic(auto)]

mod account;
mod accounts;
mod balancing;
mod laws;
mod links;
mod repo;
mod taking;
mod tree;

pub use account::Account;
pub use accounts::Accounts;
pub use laws::{accounts_join, dids_are_named};
pub use repo::Repo;
