//! What holds of all journals and of all runs. Each law is the contract of a function without a
//! body.
#![tactic(auto)]

mod laws;

pub use laws::{
    calls_answer_right, carried_stay_sound, checks_are_right, covered_are_accepted,
    decided_rows_are_formed, fronts_are_sound, journals_come_on, journals_stay_faithful,
    made_rows_are_formed, merges_agree, operated_rows_are_formed, operators_are_faithful,
    operators_stay_sound, premises_are_needed, runs_are_faithful, runs_are_read_back,
    runs_follow_known, runs_stay_sound, sent_are_events, some_checks_are_right, sound_replays,
    stores_stay_sound, synced_rows_are_formed,
};
