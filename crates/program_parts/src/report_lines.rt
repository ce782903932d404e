//! What the lines of a report count.

/// A reader of a report, who counts its lines by what they say.
#[derive(Clone, Copy)]
pub(crate) struct ReportCounts {
    pub(crate) messages: u64,
    pub(crate) events: u64,
    pub(crate) refused: u64,
    // Where the next byte stands: in which field of its line, and at which place in it.
    field: u8,
    place: u8,
}

impl ReportCounts {
    pub(crate) fn new() -> ReportCounts {
        ReportCounts {
            messages: 0,
            events: 0,
            refused: 0,
            field: 0,
            place: 0,
        }
    }

    pub(crate) fn read(&mut self, bytes: &[u8]) {
        for byte in bytes {
            self.step(*byte);
        }
    }

    // The third field of a line is `event`, or begins as `refused` does; no other has these letters there.
    fn step(&mut self, byte: u8) {
        match (byte, self.field, self.place) {
            (b'\n', _, _) => {
                self.messages = self.messages.saturating_add(1);
                self.field = 0;
                self.place = 0;
                return;
            }
            (b' ', _, _) => {
                self.field = self.field.saturating_add(1);
                self.place = 0;
                return;
            }
            (b'v', 2, 1) => self.events = self.events.saturating_add(1),
            (b'r', 2, 0) => self.refused = self.refused.saturating_add(1),
            _ => {}
        }
        self.place = self.place.saturating_add(1);
    }
}
