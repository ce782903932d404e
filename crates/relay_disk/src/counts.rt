//! Counts of faults.
ghost use Rattle.std.specs.Prelude.{◌≡◌, ◌≤◌, IsErr, OnOk, OnErr};
ghost use Rattle.at_cid.specs.Counts.{Rose};

use crate::Failed;

/// Fails, and counts it.
pub fn fail<T>(faults: &mut u64) -> Result<T, Failed>
    ensures err { IsErr result }
    ensures rose { Rose faults.old faults.new }
    ensures counts { faults.old ≤ faults.new }
{
    *faults = faults.saturating_add(1);
    Err(Failed)
}

/// Counts an answer that is a failure.
pub fn counted<T>(faults: &mut u64, answer: Result<T, Failed>) -> Result<T, Failed>
    ensures same { result ≡ answer }
    ensures steady { OnOk result (faults.new ≡ faults.old) }
    ensures rose { OnErr result (Rose faults.old faults.new) }
    ensures counts { faults.old ≤ faults.new }
{
    if answer.is_err() {
        *faults = faults.saturating_add(1);
    }
    answer
}
