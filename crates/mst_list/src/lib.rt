//! Lists of a repository's keys, in which a subtree that isn't at hand is a hole: heights of keys, and the playing and
//! undoing of a commit's operations.
#![tactic(auto)]

mod editing;
mod guarding;
mod heights;
mod item;
mod item_list;
mod judging;
mod key_bytes;
mod laws;
mod limits;
mod op;
mod op_list;
mod playing;
mod scanning;
mod undoing;

pub use guarding::guarded;
pub use heights::{height, height_behind};
pub use item::{Item, MOST_KEY_BYTES};
pub use item_list::ItemList;
pub use judging::{Verdict, weigh};
pub use key_bytes::KeyBytes;
pub use laws::{edit_law, undoing_order_law, visible_law};
pub use limits::{MOST_HEIGHT, OP_COUNTS};
pub use op::Op;
pub use op_list::OpList;
pub use playing::{PlayFault, play};
pub use undoing::{UndoFault, undo_list};
