//! Why fields were not read.

ghost use Rattle.std.specs.Prelude.{◌≡◌};

use at_cid::Memory;

/// Why the fields of an event were not read.
#[derive(Clone, Copy, Debug, PartialEq, Eq)]
pub enum Flaw {
    /// A field is missing or of another form.
    BadField,
    /// Memory ran out.
    Memory,
}

impl From<Memory> for Flaw {
    ghost use Rattle.at_event.specs.declared.flaw.Flaw.{Flaw};

    ghost from_gives = { λ _ e. e ≡ Flaw.Memory };

    fn from(_e: Memory) -> Flaw {
        Flaw::Memory
    }
}
