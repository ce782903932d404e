//! Laws of hosts, each the contract of a function that does nothing.

ghost use Rattle.host_state.specs.Laws.{HostsTellCursors, HostsJoin};

/// The list of hosts tells the cursor of each.
pub fn hosts_tell_cursors()
    ensures { HostsTellCursors }
{}

/// The hosts behind a journal in two halves.
pub fn hosts_join()
    ensures { HostsJoin }
{}
