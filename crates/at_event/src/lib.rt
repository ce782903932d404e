//! The frames of a host's stream: what a message says, the events that a relay passes on, and its own events.
#![tactic(auto)]

mod commit_box;
mod event;
mod flaw;
mod forms;
mod frame;
mod head;
mod header;
mod kind;
mod laws;
mod map_fields;
mod ops;
mod own;
mod reading;
mod refusal;
mod table;
mod writing;

pub use commit_box::CommitBox;
pub use event::{AccountEvent, Body, CommitEvent, Event, SyncEvent};
pub use frame::{Frame, FrameFault};
pub use head::Head;
pub use kind::EventKind;
pub use laws::{events_are_formed, frames_are_events, frames_are_renumbered, payloads_are_maps};
pub use map_fields::{
    write_bool_field, write_bytes_field, write_number_field, write_text_field, write_tid_field,
};
pub use ops::{Action, EventOp, EventOps};
pub use own::{account_frame, sync_frame};
pub use reading::read_frame;
pub use refusal::{BAD_NODE, NOT_COVERED, OTHER_DATA, OTHER_OP, Refusal};
pub use writing::{frame_len, out_frame, out_len, write_frame};
