//! What the relay's programs share: their words, and how far a long run is.
#![tactic(auto)]

mod arguments;
mod pace;
mod progress;
mod report_lines;
mod texts;

pub use arguments::{ArgumentsFault, read_arguments};
pub use progress::{ProgressSink, ProgressSource};
pub use texts::{Texts, write_text};
