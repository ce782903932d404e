//! The machine's clock.
ghost use Rattle.std.specs.Prelude.{◌≡◌, [], false};

use crate::Reporter;
use at_cid::NUMBERS;
use relay_io::{Clock, Failed};
use std::time;

/// The machine's clock, whose moments are not told. A moment past the last number counts as that. A
/// clock that can't be read is a fault, which is reported.
#[derive(Drop)]
pub struct SystemClock<R: time::Clock> {
    reporter: Reporter,
    rt: R,
    faults: u64,
}

impl<R: time::Clock> SystemClock<R> {
    /// A clock over this one of the machine, without faults so far.
    pub fn new(reporter: Reporter, rt: R) -> Self
        ensures clock { result.rt ≡ rt }
        ensures faults { result.faults ≡ 0 }
    {
        SystemClock {
            reporter,
            rt,
            faults: 0,
        }
    }
}

impl<R: time::Clock> Clock for SystemClock<R> {
    ghost tells = { false };

    ghost moments = { λ _. [] };

    ghost faults = { λ clock. clock.faults };

    fn now(&mut self) -> Result<u64, Failed> {
        match self.rt.since_1970() {
            Ok(elapsed) => match u64::try_from(elapsed.as_micros()) {
                Ok(moment) => Ok(moment.min(NUMBERS - 1)),
                Err(_) => Ok(NUMBERS - 1),
            },
            Err(error) => {
                self.reporter.report("the clock", &error);
                self.faults = self.faults.saturating_add(1);
                Err(Failed)
            }
        }
    }
}
