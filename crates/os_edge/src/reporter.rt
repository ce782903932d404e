//! Where a run reports what went wrong.

use at_cid::Memory;
use std::cell::Cell;
use std::fmt::Display;
use std::io::IsTerminal;

/// What a run has written to standard error so far.
#[derive(Drop)]
struct Screen {
    // Whether something was reported that ends the run.
    has_reported: Cell<bool>,
    // Whether a line of progress stands at the end, which the next line replaces.
    shows_progress: Cell<bool>,
}

/// Reports to standard error: a line for each thing that went wrong, after the program's name, and a
/// line of progress that goes as soon as anything else is written. A line that can't be written is
/// lost.
#[derive(Clone, Copy)]
pub struct Reporter {
    rt: HostRuntime,
    program: &'static str,
    screen: &'static Screen,
}

impl Reporter {
    /// The reporter of this program. It lasts as long as the process.
    pub fn new(rt: HostRuntime, program: &'static str) -> Result<Reporter, Memory> {
        let screen = Screen {
            has_reported: Cell::new(false),
            shows_progress: Cell::new(false),
        };
        let screen = Box::leak(Box::new(rt.alloc(), screen)?);
        Ok(Reporter {
            rt,
            program,
            screen,
        })
    }

    /// The runtime.
    pub fn rt(&self) -> &HostRuntime {
        &self.rt
    }

    /// Reports what failed, and why.
    pub fn report<W: Display>(&self, what: &str, why: &W) {
        self.screen.has_reported.set(true);
        self.remark(what, why);
    }

    /// Writes a line that is no failure of the run.
    pub fn remark<W: Display>(&self, what: &str, why: &W) {
        self.screen.shows_progress.set(false);
        write_line(&self.rt, self.program, what, why);
    }

    /// Writes a text that ends in a line feed.
    pub fn show<W: Display>(&self, text: &W) {
        self.clear_progress();
        let _ = eprint!(self.rt; "{text}");
    }

    /// Whether a failure was reported.
    pub fn has_reported(&self) -> bool {
        self.screen.has_reported.get()
    }

    /// Shows a text as the line of progress.
    pub fn show_progress<W: Display>(&self, text: &W) {
        self.screen.shows_progress.set(true);
        let _ = eprint!(self.rt; "\r\x1b[K{text}");
    }

    /// Takes the line of progress away.
    pub fn clear_progress(&self) {
        if self.screen.shows_progress.replace(false) {
            let _ = eprint!(self.rt; "\r\x1b[K");
        }
    }
}

/// Writes a line to standard error, in place of a line of progress that may stand there.
pub(crate) fn write_line<W: Display>(rt: &HostRuntime, program: &str, what: &str, why: &W) {
    let clear = if rt.stderr().is_terminal() {
        "\r\x1b[K"
    } else {
        ""
    };
    let _ = eprintln!(rt; "{clear}{program}: {what}: {why}");
}
