//! A law of made histories.

ghost use Rattle.relay_gen.specs.Laws.{HostsTellOfTheirOwn};

/// Each event of a made history is of an account of the host that sends it.
pub fn hosts_tell_of_their_own()
    ensures { HostsTellOfTheirOwn }
{}
