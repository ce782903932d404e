//! The law of what a relay serves, the contract of a function that does nothing.

ghost use Rattle.relay_chain.specs.Laws.{ServedFollow};

/// Where a host sends all that a relay serves, the accounts whose whole history the relay shows follow.
pub fn served_follow()
    ensures { ServedFollow }
{}
