//! That the laws of journals want their premises: for each, a small instance in which the law without it fails. Each is the contract
//! of a function without a body.
#![tactic(auto)]

mod instances;

pub use instances::{
    carried_may_be_unsound, checks_may_say_otherwise, covered_may_be_refused,
    decided_may_be_ill_formed, journals_may_be_others, linking_may_be_wrong,
    made_may_be_ill_formed, merges_may_disagree, operated_may_be_ill_formed,
    operators_may_be_unfaithful, rows_may_be_of_lost, runs_may_be_unfaithful, runs_may_be_unsound,
    stores_may_be_unsound, synced_may_be_ill_formed, unfounded_come_on,
};
